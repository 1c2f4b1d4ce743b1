//! Which columns can be encoded.
ghost use Rattle.std.specs.Prelude.{◌≡◌, [], map, IfErr, IfOk, OnOk};
ghost use Rattle.lower.specs.TypeViews.{fields_view};
ghost use Rattle.lower_arrays.specs.AnyLayouts.{layout_of};
ghost use Rattle.ipc_base.specs.IdTrees.{all_ids_view};
ghost use Rattle.ipc_model.specs.Writable.{IsWritable};
ghost use Rattle.ipc_chunks.specs.Chunks.{RefusesColumns, encoded_fields};

use ipc_base::ipc::IpcField;
use ipc_devices::{ArgFault, Fault};
use ipc_schema_write::schema::serialize_schema;
use lower::datatypes::{Field, Schema};
use lower_arrays::array::AnyArray;
use std::alloc::{AllocError, Global};

// Fields of the columns' types, nullable, without names and metadata.
fn fields_of(alloc: Global, columns: &[AnyArray]) -> Result<Vec<Field>, AllocError>
    ensures { IfOk result (λ fields. fields_view fields.items ≡ encoded_fields (map layout_of columns.now)) }
{
    let mut fields = Vec::new(alloc);
    for column in columns {
        let data_type = column.data_type().clone()?;
        fields.push(Field::new(String::new(alloc), data_type, true))?;
    }
    Ok(fields)
}

// Refuses columns if there are not as many ids, or if the types can't be written with these.
pub(crate) fn check_columns(
    alloc: Global,
    columns: &[AnyArray],
    ids: &[IpcField],
) -> Result<(), Fault>
    ensures ok { OnOk result (IsWritable (encoded_fields (map layout_of columns.now)) [] (all_ids_view ids.now)) }
    ensures refused { IfErr result (RefusesColumns (map layout_of columns.now) (all_ids_view ids.now)) }
{
    if columns.len() != ids.len() {
        return Err(Fault::Argument(ArgFault::ColumnCount));
    }
    let schema = Schema::from(fields_of(alloc, columns)?);
    let _ = serialize_schema(alloc, &schema, ids, true)?;
    Ok(())
}
