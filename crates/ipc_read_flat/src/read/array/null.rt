//! Reads columns of nulls.
ghost use Rattle.std.specs.Prelude.{◌≡◌, ◌<◌, IfErr};
ghost use Rattle.ipc_devices.specs.Faults.{OnIo, OwnFault, Answers};
ghost use Rattle.lower.specs.TypeViews.{type_view};
ghost use Rattle.lower.specs.Physical.{physical};
ghost use Rattle.lower.specs.declared.datatypes.physical_type.PhysicalType.TheVariants.{Null};
ghost use Rattle.lower_arrays.specs.Flat.{null_layout};
ghost use Rattle.ipc_model.specs.Kinds.{null_kind};
ghost use Rattle.ipc_model.specs.Columns.{IsWell};
ghost use Rattle.ipc_model.specs.ReadArrays.{array_at};
ghost use Rattle.ipc_read_flat.specs.Bodies.{HasRoom, entries, known};
ghost use Rattle.ipc_read_flat.specs.Refusals.{IsColumnFault, TellsEntries};

use crate::read::body::{Body, Place};
use crate::read::read_basic::read_node;
use ipc_devices::Failures;
use ipc_devices::fault::Fault;
use lower::datatypes::DataType;
use lower_arrays::array::NullArray;

/// Reads a column of nulls: a node, and no buffer.
///
/// `data_type` has this physical type. Nothing is read from the device. See "Null Layout" in the
/// Arrow columnar format. The errors are `NegativeFooterLength` if the node's length is negative,
/// and `Memory`.
#[tactic(auto, using(crate::proofs::Refusals::buffer_column))]
pub fn read_null<R: Failures>(
    data_type: &DataType,
    body: &Body<R>,
    place: Place,
    limit: Option<usize>,
) -> Result<NullArray, Fault>
    requires lies { physical (type_view data_type.now) ≡ Null }
    requires room { HasRoom body.now place 1 0 }
    ensures only { IfErr result (λ e. OwnFault e (IsColumnFault e)) }
    ensures tells { IfErr result
        (λ e. OwnFault e (TellsEntries R.device.is_memory (entries R.device body.now) e)) }
    ensures own { OnIo result ⊥ }
    ensures exact { let s = entries R.device body.now in
        Answers result (IsWell s null_kind place.node place.buffer limit)
        (λ array. null_layout array ≡ array_at s (known body.now) null_kind
        (type_view data_type.now) place.node place.buffer limit) }
{
    let node = read_node(body, place.node, limit)?;
    let data_type = data_type.clone()?;
    Ok(NullArray::try_new(data_type, node.rows)?)
}
