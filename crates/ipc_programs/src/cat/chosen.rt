//! The requested columns of a stream or a file.
ghost use Rattle.std.specs.Prelude.{IfOk};
ghost use Rattle.ipc_programs.specs.CatWords.{AreNumbers, NamesNumbers, columns_by};
ghost use Rattle.ipc_programs.specs.Positions.{ArePositions, IsChoice};

use crate::cat::forms::Columns;
use arrow2_ipc::io::ipc::read::is_projection;
use std::alloc::{AllocError, Global};

/// The requested columns of a schema.
#[derive(Drop)]
pub enum Chosen {
    /// Those of a projection; None means all.
    Columns(Option<Vec<usize>>),

    /// A position repeats, or isn't in the schema.
    Others,
}

/// The requested columns, of a schema with `count` columns.
pub fn chosen_among(alloc: Global, columns: Columns<'_>, count: usize) -> Result<Chosen, AllocError>
    requires { NamesNumbers columns }
    ensures { IfOk result (IsChoice (columns_by columns.entry) count) }
{
    let Columns::At(word) = columns else {
        return Ok(Chosen::Columns(None));
    };
    match positions_in(alloc, word)? {
        Some(positions) if is_projection(&positions, count) => Ok(Chosen::Columns(Some(positions))),
        _ => Ok(Chosen::Others),
    }
}

// The positions in an argument; None if one is too large for a position.
fn positions_in(alloc: Global, word: &str) -> Result<Option<Vec<usize>>, AllocError>
    requires { AreNumbers word.now }
    ensures { IfOk result (ArePositions word.now) }
{
    let mut positions = Vec::new(alloc);
    for position in word.split(',') {
        match position.parse::<usize>() {
            Ok(position) => positions.push(position)?,
            Err(_) => return Ok(None),
        }
    }
    Ok(Some(positions))
}
