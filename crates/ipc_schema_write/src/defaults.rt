//! Default dictionary ids of a schema.
ghost use Rattle.std.specs.Prelude.{◌≡◌, ◌+◌, ◌≤◌, ◌^◌, ◌↔◌, IfErr, IfOk, IsTrue, MatchOption, length, pos};
ghost use Rattle.lower.specs.Counts.{fields_places};
ghost use Rattle.lower.specs.TypeViews.{type_view, field_view, fields_view};
ghost use Rattle.ipc_base.specs.IdTrees.{ids_view, all_ids_view};
ghost use Rattle.ipc_base.specs.Fitting.{AllFit};
ghost use Rattle.ipc_schema_write.specs.DefaultIds.{count_below, count_field, count_all, default_children, default_ids, default_all, DefaultLaw};
ghost use Rattle.ipc_schema_write.specs.DefaultRows.{DefaultRows};
ghost use Rattle.lower.specs.TypeTrees.{Pairs};
ghost use Rattle.ipc_model.specs.Writable.{most_places};
ghost use Rattle.ipc_schema_write.specs.Refusals.{RefusesCount, RefusesMany};
ghost use Rattle.ipc_schema_write.specs.WriterAnswers.{RefusesSchema};

use crate::schema::MAX_PLACES;
use ipc_base::fault::{ArgFault, Fault};
use ipc_base::ipc::IpcField;
use lower::datatypes::counts::is_dictionary_type;
use lower::datatypes::{DataType, Field};
use std::alloc::Global;

/// Returns default ids: dictionary fields get 0, 1, 2 and so on, in pre-order.
///
/// Errors:
///
/// - `Fault::Argument(ArgFault::TooLarge)`: there are at least `2^63` dictionary fields, so that
///   one would get the id `i64::MAX`.
/// - `Fault::Memory`: an allocation failed.
pub fn default_ipc_fields(alloc: Global, fields: &[Field]) -> Result<Vec<IpcField>, Fault>
    ensures ids { IfOk result
        (λ r. all_ids_view r.items ≡ default_all 0 (fields_view fields.now)) }
    ensures fit { IfOk result (λ r. AllFit (fields_view fields.now) (all_ids_view r.items)) }
    ensures only { RefusesCount result
        (2 ^ 63 ≤ length (fields_places (fields_view fields.now))) }
{
    let mut next = 0;
    let ids = ids_from(alloc, fields, &mut next)?;
    Ok(ids)
}

/// Returns the default ids of a schema that is written, as [`default_ipc_fields`] does.
///
/// The dictionary fields are counted first, so that no more ids are made than can be written.
/// Errors:
///
/// - `Fault::Argument(ArgFault::NotWritable)`: there are more than 65,536 dictionary fields.
/// - `Fault::Memory`: an allocation failed.
pub fn writable_ipc_fields(alloc: Global, fields: &[Field]) -> Result<Vec<IpcField>, Fault>
    ensures ids { IfOk result
        (λ r. all_ids_view r.items ≡ default_all 0 (fields_view fields.now)) }
    ensures fit { IfOk result (λ r. AllFit (fields_view fields.now) (all_ids_view r.items)) }
    ensures only { IfErr result (λ e. (es : Pairs)
        → RefusesSchema e (fields_view fields.now) es (default_all 0 (fields_view fields.now))) }
    ensures many { IfErr result (RefusesMany (fields_view fields.now)) }
{
    if !has_few_places(fields) {
        return Err(Fault::Argument(ArgFault::NotWritable));
    }
    default_ipc_fields(alloc, fields)
}

// Whether there are no more dictionary fields than can be written.
fn has_few_places(fields: &[Field]) -> bool
    ensures { IsTrue result ↔ (count_all (fields_view fields.now) ≤ most_places) }
{
    match count_all(fields) {
        Some(count) => count <= MAX_PLACES as u64,
        None => false,
    }
}

// The number of dictionary fields, or None if it is 2^64 or more.
#[cycle(counts)]
fn count_all(fields: &[Field]) -> Option<u64>
    ensures { MatchOption result (2 ^ 64 ≤ count_all (fields_view fields.now)) (λ count. count ≡ count_all (fields_view fields.now)) }
{
    let mut sum = 0u64;
    for field in fields {
        sum = sum.checked_add(count_field(field)?)?;
    }
    Some(sum)
}

#[cycle(counts)]
fn count_field(field: &Field) -> Option<u64>
    ensures { MatchOption result (2 ^ 64 ≤ count_field (field_view field.now)) (λ count. count ≡ count_field (field_view field.now)) }
{
    let below = count_below(&field.data_type)?;
    if is_dictionary_type(&field.data_type) {
        below.checked_add(1)
    } else {
        Some(below)
    }
}

#[cycle(counts)]
fn count_below(data_type: &DataType) -> Option<u64>
    ensures { MatchOption result (2 ^ 64 ≤ count_below (type_view data_type.now)) (λ count. count ≡ count_below (type_view data_type.now)) }
{
    match data_type {
        DataType::List(field)
        | DataType::LargeList(field)
        | DataType::FixedSizeList(field, _)
        | DataType::Map(field, _) => count_field(field),
        DataType::Struct(fields) | DataType::Union(fields, _, _) => count_all(fields),
        DataType::Dictionary(_, inner, _) | DataType::Extension(_, inner, _) => count_below(inner),
        _ => Some(0),
    }
}

#[cycle(defaults)]
fn ids_from(alloc: Global, fields: &[Field], next: &mut u64) -> Result<Vec<IpcField>, Fault>
    ensures ids { IfOk result (λ r. all_ids_view r.items ≡ default_all next.old (fields_view fields.now)) }
    ensures after { IfOk result (λ _. next.new ≡ next.old + count_all (fields_view fields.now)) }
    ensures only { RefusesCount result (2 ^ 63 ≤ next.old + count_all (fields_view fields.now)) }
{
    let mut all = Vec::new(alloc);
    for field in fields {
        all.push(ids_of(alloc, field, next)?)?;
    }
    Ok(all)
}

#[cycle(defaults)]
fn ids_of(alloc: Global, field: &Field, next: &mut u64) -> Result<IpcField, Fault>
    ensures ids { IfOk result (λ r. ids_view r ≡ default_ids next.old (field_view field.now)) }
    ensures after { IfOk result (λ _. next.new ≡ next.old + count_field (field_view field.now)) }
    ensures only { RefusesCount result (2 ^ 63 ≤ next.old + count_field (field_view field.now)) }
{
    if is_dictionary_type(&field.data_type) {
        let dictionary_id = take_id(next)?;
        let fields = ids_below(alloc, &field.data_type, next)?;
        Ok(IpcField {
            fields,
            dictionary_id: Some(dictionary_id),
        })
    } else {
        let fields = ids_below(alloc, &field.data_type, next)?;
        Ok(IpcField {
            fields,
            dictionary_id: None,
        })
    }
}

// The next id.
fn take_id(next: &mut u64) -> Result<i64, Fault>
    ensures id { IfOk result (λ id. id ≡ pos next.old) }
    ensures after { IfOk result (λ _. next.new ≡ next.old + 1) }
    ensures only { RefusesCount result (2 ^ 63 ≤ next.old + 1) }
{
    if *next >= i64::MAX as u64 {
        return Err(Fault::Argument(ArgFault::TooLarge));
    }
    let id = next.cast_signed();
    *next += 1;
    Ok(id)
}

#[cycle(defaults)]
fn ids_below(alloc: Global, data_type: &DataType, next: &mut u64) -> Result<Vec<IpcField>, Fault>
    ensures ids { IfOk result (λ r. all_ids_view r.items ≡ default_children next.old (type_view data_type.now)) }
    ensures after { IfOk result (λ _. next.new ≡ next.old + count_below (type_view data_type.now)) }
    ensures only { RefusesCount result (2 ^ 63 ≤ next.old + count_below (type_view data_type.now)) }
{
    match data_type {
        DataType::List(field)
        | DataType::LargeList(field)
        | DataType::FixedSizeList(field, _)
        | DataType::Map(field, _) => {
            let only = ids_of(alloc, field, next)?;
            let mut all = Vec::new(alloc);
            all.push(only)?;
            Ok(all)
        }
        DataType::Struct(fields) | DataType::Union(fields, _, _) => ids_from(alloc, fields, next),
        DataType::Dictionary(_, inner, _) | DataType::Extension(_, inner, _) => {
            ids_below(alloc, inner, next)
        }
        _ => Ok(Vec::new(alloc)),
    }
}

/// A theorem: default ids of dictionary fields are 0, 1, 2 and so on.
///
/// They are in pre-order.
#[tactic(auto, using(crate::proofs::DefaultOrder::default_law))]
pub fn ids_in_order()
    ensures { DefaultLaw }
{}

/// A theorem: the ids of two examples of fields.
///
/// One of them is a dictionary in a dictionary.
#[tactic(auto, using(crate::proofs::DefaultRows::default_rows))]
pub fn ids_of_written_out_fields()
    ensures { DefaultRows }
{}
