//! Reads columns of dictionary keys, whose values were read before.
ghost use Rattle.std.specs.Prelude.{◌≡◌, ◌+◌, ◌≤◌, Some, IsTrue, IfOk, IfErr};
ghost use Rattle.ipc_devices.specs.Faults.{OnIo, OwnFault, Answers};
ghost use Rattle.lower.specs.Normal.{norm};
ghost use Rattle.lower.specs.Physical.{integer, physical};
ghost use Rattle.lower.specs.TypeTrees.{plain};
ghost use Rattle.lower.specs.TypeViews.{type_view};
ghost use Rattle.lower.specs.declared.datatypes.physical_type.PhysicalType.TheVariants.{Dictionary};
ghost use Rattle.lower_validation.specs.AnyKeys.{keys_seen};
ghost use Rattle.lower_validation.specs.Keys.{values_type as named_type};
ghost use Rattle.lower_validation.specs.Rules.{DictionaryRules};
ghost use Rattle.lower_arrays.specs.AnyLayouts.{layout_of};
ghost use Rattle.lower_arrays.specs.Dictionaries.{dictionary_seen, dictionary_layout};
ghost use Rattle.lower_arrays.specs.Layouts.{len_of, type_of};
ghost use Rattle.ipc_model.specs.Columns.{values_type, IsWell};
ghost use Rattle.ipc_model.specs.Entries.{listed, rows};
ghost use Rattle.ipc_model.specs.Kinds.{number_kind, dictionary_kind};
ghost use Rattle.ipc_model.specs.ReadArrays.{array_at};
ghost use Rattle.ipc_model.specs.TypeKinds.{key_form};
ghost use Rattle.ipc_read_flat.specs.Bodies.{KeepsBytes, HasRoom, entries, known};
ghost use Rattle.ipc_read_flat.specs.HeldListed.{HoldsListed, keys_held};
ghost use Rattle.ipc_read_flat.specs.KeyLevels.{keys_at};
ghost use Rattle.ipc_read_flat.specs.Kinds.{IsBehind, listed_in};
ghost use Rattle.ipc_read_flat.specs.Refusals.{IsBufferFault, IsColumnFault, IsRuleFault, RefusesValues, TellsEntries};
ghost use Rattle.ipc_read_flat.specs.Steps.{Step};

use crate::read::array::primitive::read_primitive;
use crate::read::body::{Body, Place};
use ipc_devices::fault::{Fault, OutOfSpecKind};
use ipc_devices::{Failures, Reads, Seeks};
use lower::datatypes::{DataType, IntegerType, is_same_normal_type};
use lower_arrays::array::{AnyArray, DictionaryArray};
use lower_validation::keys::DictionaryKeys;
use std::alloc::Global;
use std::sync::Arc;

/// The dictionary values under an id, shared with `body.dictionaries`.
///
/// See "Dictionary-encoded Layout" in the Arrow columnar format.
///
/// # Errors
/// - `InvalidId`: there are no values under the id, or no id (the error then names 0).
/// - `InvalidIdDataType`: the values have another type, comparing both in their normal form.
/// - `Memory`: the values have as many owners as can be counted.
#[tactic(auto, using(crate::proofs::KnownValues::known_values, crate::proofs::Reasons::reasons))]
pub fn shared_values<R: Failures>(
    value_type: &DataType,
    id: Option<i64>,
    body: &Body<R>,
) -> Result<Arc<AnyArray>, Fault>
    ensures own { OnIo result ⊥ }
    ensures only { IfErr result (λ e. OwnFault e (IsColumnFault e)) }
    ensures tells { IfErr result
        (λ e. OwnFault e (TellsEntries R.device.is_memory (entries R.device body.now) e)) }
    ensures why { IfErr result (λ e. OwnFault e
        (RefusesValues (entries R.device body.now) id (norm (type_view value_type.now)) e)) }
    ensures named { IfOk result (λ values. norm (type_of (layout_of values.value)) ≡ norm (type_view value_type.now)) }
    ensures exact { Answers result (values_type (entries R.device body.now) id
        ≡ Some (norm (type_view value_type.now)))
        (λ values. layout_of values.value ≡ known body.now id) }
{
    let Some(requested_id) = id else {
        return Err(OutOfSpecKind::InvalidId { requested_id: 0 }.into());
    };
    let Some(values) = body.dictionaries.get(&requested_id) else {
        return Err(OutOfSpecKind::InvalidId { requested_id }.into());
    };
    if !is_same_normal_type(values.data_type(), value_type) {
        return Err(OutOfSpecKind::InvalidIdDataType { requested_id }.into());
    }
    Ok(values.clone()?)
}

/// Reads the keys of a dictionary column, which are numbers of type `data_type`.
///
/// The errors are those of [`read_primitive`].
pub fn read_keys<R: Reads + Seeks>(
    alloc: Global,
    keys: IntegerType,
    data_type: &DataType,
    reader: &mut R,
    body: &Body<R>,
    place: Place,
    limit: Option<usize>,
    scratch: &mut Vec<u8>,
) -> Result<DictionaryKeys, Fault>
    requires typed { type_view data_type.now ≡ plain (integer keys) }
    requires room { HasRoom body.now place 1 2 }
    requires stands { KeepsBytes R.device reader.old body.now }
    ensures only { IfErr result (λ e. OwnFault e (IsBufferFault e)) }
    ensures tells { IfErr result
        (λ e. OwnFault e (TellsEntries R.device.is_memory (entries R.device body.now) e)) }
    ensures step { let s = entries R.device body.now in
        Step R.device body.now
        (listed s place.buffer + listed s (place.buffer + 1)) reader.old result reader.new }
    ensures held { let s = entries R.device body.now in IfOk result
        (λ read. keys_held (keys_seen read)
        ≤ listed s place.buffer + listed s (place.buffer + 1)) }
    ensures memory { IsTrue R.device.is_memory → let s = entries R.device body.now in
        Answers result (IsWell s (number_kind (key_form keys)) place.node place.buffer limit)
        (λ read. keys_seen read ≡ keys_at s keys place.node place.buffer
        (rows s place.node limit)) }
{
    match keys {
        IntegerType::Int8 => {
            let read = read_primitive(alloc, data_type, reader, body, place, limit, scratch)?;
            Ok(DictionaryKeys::Int8(read))
        }
        IntegerType::Int16 => {
            let read = read_primitive(alloc, data_type, reader, body, place, limit, scratch)?;
            Ok(DictionaryKeys::Int16(read))
        }
        IntegerType::Int32 => {
            let read = read_primitive(alloc, data_type, reader, body, place, limit, scratch)?;
            Ok(DictionaryKeys::Int32(read))
        }
        IntegerType::Int64 => {
            let read = read_primitive(alloc, data_type, reader, body, place, limit, scratch)?;
            Ok(DictionaryKeys::Int64(read))
        }
        IntegerType::UInt8 => {
            let read = read_primitive(alloc, data_type, reader, body, place, limit, scratch)?;
            Ok(DictionaryKeys::UInt8(read))
        }
        IntegerType::UInt16 => {
            let read = read_primitive(alloc, data_type, reader, body, place, limit, scratch)?;
            Ok(DictionaryKeys::UInt16(read))
        }
        IntegerType::UInt32 => {
            let read = read_primitive(alloc, data_type, reader, body, place, limit, scratch)?;
            Ok(DictionaryKeys::UInt32(read))
        }
        IntegerType::UInt64 => {
            let read = read_primitive(alloc, data_type, reader, body, place, limit, scratch)?;
            Ok(DictionaryKeys::UInt64(read))
        }
    }
}

/// Makes the array of keys and values.
///
/// # Errors
/// - `PhysicalType`: the type isn't a dictionary with such keys.
/// - `DictionaryValues`: the values don't have the type that it names.
/// - `DictionaryKey`: a key that isn't null is negative, or not less than the number of values.
/// - `Memory`.
#[tactic(auto, using(crate::proofs::KeyReads::dictionary_rules))]
pub fn make_dictionary(
    own: &DataType,
    keys: DictionaryKeys,
    values: Arc<AnyArray>,
) -> Result<AnyArray, Fault>
    ensures own { OnIo result ⊥ }
    ensures only { IfErr result (λ e. OwnFault e (IsRuleFault e)) }
    ensures exact { let u = type_view own.now in let c = layout_of values.value in
        Answers result (DictionaryRules u (keys_seen keys) (type_of c) (len_of c))
        (λ array. layout_of array ≡ dictionary_layout (dictionary_seen u (keys_seen keys) c)) }
{
    let own = own.clone()?;
    let array = DictionaryArray::try_new(own, keys, values)?;
    Ok(AnyArray::Dictionary(array))
}

/// Reads a column of keys: a node, a validity, and a key for each slot.
///
/// Returns the column and the position after it. The values are those under the id, shared. `own`
/// is a dictionary type with such keys and the value type `value_type`. See "Dictionary-encoded
/// Layout" in the Arrow columnar format.
///
/// # Errors
/// - `InvalidId`, `InvalidIdDataType`: as in [`shared_values`].
/// - Those of [`read_primitive`].
/// - `DictionaryKey`: a key that isn't null has no value.
/// - `Io`, `Memory`.
#[tactic(auto, using(crate::proofs::Reasons::reasons))]
pub fn read_dictionary<R: Reads + Seeks>(
    alloc: Global,
    keys: IntegerType,
    value_type: &DataType,
    own: &DataType,
    id: Option<i64>,
    reader: &mut R,
    body: &Body<R>,
    place: Place,
    limit: Option<usize>,
    scratch: &mut Vec<u8>,
) -> Result<(AnyArray, Place), Fault>
    requires lies { physical (type_view own.now) ≡ Dictionary keys }
    requires named { named_type (type_view own.now) ≡ type_view value_type.now }
    requires room { HasRoom body.now place 1 2 }
    requires stands { KeepsBytes R.device reader.old body.now }
    ensures only { IfErr result (λ e. OwnFault e (IsColumnFault e)) }
    ensures tells { IfErr result
        (λ e. OwnFault e (TellsEntries R.device.is_memory (entries R.device body.now) e)) }
    ensures step { let t = dictionary_kind (key_form keys) id (norm (type_view value_type.now)) in
        Step R.device body.now
        (listed_in (entries R.device body.now) body.now.extra t place.buffer) reader.old
        result reader.new }
    ensures next { IfOk result (λ r. IsBehind body.now.extra (dictionary_kind (key_form keys) id (norm (type_view value_type.now))) place r.1) }
    ensures held { let t = dictionary_kind (key_form keys) id (norm (type_view value_type.now)) in
        IfOk result (λ r. HoldsListed (entries R.device body.now) body.now.extra t place.buffer
        (layout_of r.0)) }
    ensures memory { IsTrue R.device.is_memory → let s = entries R.device body.now in
        let t = dictionary_kind (key_form keys) id (norm (type_view value_type.now)) in
        Answers result (IsWell s t place.node place.buffer limit)
        (λ r. layout_of r.0 ≡ array_at s (known body.now) t (type_view own.now) place.node
        place.buffer limit) }
{
    let values = shared_values(value_type, id, body)?;
    let key_type = DataType::from(keys);
    let read = read_keys(alloc, keys, &key_type, reader, body, place, limit, scratch)?;
    let array = make_dictionary(own, read, values)?;
    let after = Place {
        node: place.node + 1,
        buffer: place.buffer + 2,
    };
    Ok((array, after))
}
