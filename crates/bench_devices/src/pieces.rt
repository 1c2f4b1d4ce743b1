//! A device that gives its bytes in pieces.
ghost use Rattle.std.specs.Prelude.{◌≡◌, drop, false, refl, IfOk};
ghost use Rattle.bench_devices.specs.Pieces.{PiecesGive, pieces_nothing, pieces_in_order};
ghost use Rattle.ipc_devices.specs.Device.{memory_device};
ghost use Rattle.ipc_devices.specs.GivesLaws.{never};

use ipc_devices::{Failures, MemFile, Reads};
use std::alloc::{AllocError, Global};
use std::io;

/// A device that returns its bytes in pieces.
///
/// It returns 0 once at the end of each, as a pipe does whose writer pauses.
#[derive(Drop)]
pub struct Pieces {
    piece: MemFile<Vec<u8>>,
    // the pieces after it, the last one first
    later: Vec<Vec<u8>>,
    given: u64,
}

impl Pieces {
    /// A device that gives these pieces in turn.
    pub fn new(alloc: Global, pieces: &[&[u8]]) -> Result<Pieces, AllocError>
        ensures { IfOk result (λ device. device.given ≡ 0) }
    {
        let mut later = Vec::new(alloc);
        for piece in pieces.iter().rev() {
            later.push(Vec::from_slice(alloc, piece)?)?;
        }
        let first = later.pop().unwrap_or(Vec::new(alloc));
        Ok(Pieces {
            piece: MemFile::new(first),
            later,
            given: 0,
        })
    }
}

impl Failures for Pieces {
    // A read may replace the piece.
    ghost device = { record (memory_device
        (λ p. record { whole = p.piece.inner.items; place = p.piece.position })
        (λ p. p.given) (λ _. 0)) { is_read_only = false } };

    fn failures(&self) -> u64 {
        0
    }
}

impl Reads for Pieces {
    ghost gives = { λ a xs e b. PiecesGive (drop a.piece.position a.piece.inner.items) a.given xs e
        (drop b.piece.position b.piece.inner.items) b.given };

    // It lends none of its bytes.
    ghost shows = { λ _ _. ⊥ };

    ghost laws = { record {
      nothing = λ a. pieces_nothing (drop a.piece.position a.piece.inner.items) a.given;
      in_order = λ a xs b ys e c. pieces_in_order
          (drop a.piece.position a.piece.inner.items)
          (drop b.piece.position b.piece.inner.items)
          (drop c.piece.position c.piece.inner.items)
          a.given b.given c.given xs ys e;
      counted = λ a xs e b g. g.counts;
      fails = λ a xs e b g. g.succeeds;
      ahead = λ a xs e b k g. g.takes;
      still = λ a xs e b k. never k;
      names = λ a xs e b g. refl;
    } };

    fn given(&self) -> u64 {
        self.given
    }

    fn read(&mut self, buf: &mut [u8]) -> io::Result<usize> {
        let n = self.piece.read(buf)?;
        self.given = self.given.saturating_add(n as u64);
        if n == 0 && !buf.is_empty() {
            if let Some(next) = self.later.pop() {
                self.piece = MemFile::new(next);
            }
        }
        Ok(n)
    }

    fn pass(&mut self, count: usize) -> Option<&[u8]> {
        let _ = count;
        None
    }
}
