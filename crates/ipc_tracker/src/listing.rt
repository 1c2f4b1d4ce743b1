//! Lists the dictionaries of a chunk that must be written.
ghost use Rattle.std.specs.Prelude.{◌≡◌, ◌≢◌, ◌≤◌, ℤ, IsTrue, Option, None, [], ◌++◌, ◌∷◌, Some, IfErr, IfOk, OnOk, drop, map};
ghost use Rattle.ipc_devices.specs.declared.fault.Fault.TheVariants.{Argument, Memory};
ghost use Rattle.ipc_devices.specs.declared.fault.ArgFault.TheVariants.{SharedDictionary};
ghost use Rattle.ipc_base.specs.IdTrees.{IdTrees, all_ids_view};
ghost use Rattle.ipc_model.specs.Offers.{own_id, inner_ids};
ghost use Rattle.ipc_model.specs.TypeKinds.{first_ids};
ghost use Rattle.lower_arrays.specs.Layouts.{height, heights, layouts};
ghost use Rattle.lower_arrays.specs.AnyLayouts.{layout_of};
ghost use Rattle.ipc_tracker.specs.Trackers.{dictionary_of, remembered};
ghost use Rattle.ipc_tracker.specs.Places.{HaveNoKeys, keyed_below, keyed_of, own_keyed};
ghost use Rattle.ipc_tracker.specs.Listings.{seen, listed, Listed, ListsAll, Meets, Refuses, RefusesAll};

use crate::tracker::{DictionaryTracker, NewDictionary, is_same_values};
use ipc_base::ipc::IpcField;
use ipc_devices::{ArgFault, Fault};
use lower_arrays::array::{AnyArray, DictionaryArray};
use std::alloc::Global;
use std::collections::HashMap;
use std::slice;
use std::sync::Arc;

/// Returns the dictionaries of a chunk's columns that must be written.
///
/// These are the ones that the tracker doesn't know, or knows with other values. Each comes after
/// those inside its values, and shares its memory with the columns. The tracker is unchanged; after
/// they are written, call [`DictionaryTracker::remember_all`]. `ids` are those of the columns'
/// fields.
///
/// Errors (if several apply, any of them):
///
/// - `Fault::Argument(ArgFault::FieldsShape)`: an array of keys has no id.
/// - `Fault::Argument(ArgFault::SharedDictionary(id))`: two dictionaries with this id have
///   different values.
/// - `Fault::Argument(ArgFault::DictionaryReplaced(id))`: the tracker knows other values for this
///   id, and `cannot_replace` is set.
/// - `Fault::Memory`: an allocation failed.
pub fn list_dictionaries(
    alloc: Global,
    tracker: &DictionaryTracker,
    columns: &[AnyArray],
    ids: &[IpcField],
) -> Result<Vec<NewDictionary>, Fault>
    ensures lists { IfOk result (λ list.
        ListsAll (remembered tracker.now) tracker.now.cannot_replace (map layout_of columns.now)
        (all_ids_view ids.now) (map listed list.items)) }
    ensures refuses { IfErr result (RefusesAll (remembered tracker.now)
        tracker.now.cannot_replace (map layout_of columns.now) (all_ids_view ids.now)) }
{
    let mut listing = Listing::new(alloc);
    list_columns(&mut listing, tracker, columns, ids)?;
    Ok(listing.into_list())
}

// What is known of a chunk's dictionaries while its columns are visited.
#[derive(Drop)]
struct Listing {
    // The values of the chunk under each id so far.
    met: HashMap<i64, Arc<AnyArray>>,
    // The dictionaries that must be written, in order.
    list: Vec<NewDictionary>,
}

impl Listing {
    // Before any column is visited.
    fn new(alloc: Global) -> Listing
        ensures met { (id : ℤ) → (seen result).met id ≡ None }
        ensures list { (seen result).list ≡ [] }
    {
        Listing {
            met: HashMap::new(alloc),
            list: Vec::new(alloc),
        }
    }

    // The dictionaries that must be written.
    fn into_list(self) -> Vec<NewDictionary>
        ensures { map listed result.items ≡ (seen self).list }
    {
        let Listing { met: _, list } = self;
        list
    }

    // Visits an array of keys with an id.
    fn add(
        &mut self,
        tracker: &DictionaryTracker,
        id: i64,
        array: &DictionaryArray,
    ) -> Result<(), Fault>
        ensures listed { OnOk result (Listed (remembered tracker.now) tracker.now.cannot_replace (seen self.old) (seen self.new) (record { id = Some id; values = array.now.values } ∷ [])) }
        ensures refused { IfErr result (Refuses (remembered tracker.now) tracker.now.cannot_replace (seen self.old) (record { id = Some id; values = array.now.values } ∷ [])) }
    {
        if let Some(values) = self.met.get(&id) {
            return check_shared(id, values, array.values());
        }
        let changed = tracker.is_changed(id, array.values())?;
        self.meet(id, array, changed)
    }

    // Records the values of a new id, and lists them if they must be written.
    fn meet(&mut self, id: i64, array: &DictionaryArray, changed: bool) -> Result<(), Fault>
        ensures met { OnOk result (Meets (seen self.old) (seen self.new) (record { id = id; values = array.now.values }) changed) }
        ensures only { IfErr result (λ fault. fault ≡ Memory) }
    {
        self.met.insert(id, array.shared_values()?)?;
        if changed {
            let values = array.shared_values()?;
            self.list.push(NewDictionary { id, values })?;
        }
        Ok(())
    }
}

// Two arrays of the chunk have the same id, so their values must be the same.
fn check_shared(id: i64, values: &AnyArray, others: &AnyArray) -> Result<(), Fault>
    ensures same { OnOk result (dictionary_of (layout_of values.now) ≡ dictionary_of (layout_of others.now)) }
    ensures refused { IfErr result (λ fault. (fault ≡ Argument (SharedDictionary id)) × (dictionary_of (layout_of values.now) ≢ dictionary_of (layout_of others.now))) }
{
    if !is_same_values(values, others) {
        return Err(Fault::Argument(ArgFault::SharedDictionary(id)));
    }
    Ok(())
}

// Visits the arrays of keys in the columns of a chunk. Most chunks have none, which is found at
// once.
fn list_columns(
    listing: &mut Listing,
    tracker: &DictionaryTracker,
    columns: &[AnyArray],
    ids: &[IpcField],
) -> Result<(), Fault>
    ensures listed { OnOk result (Listed (remembered tracker.now) tracker.now.cannot_replace
        (seen listing.old) (seen listing.new)
        (keyed_of (layouts (map layout_of columns.now)) (all_ids_view ids.now))) }
    ensures refused { IfErr result (Refuses (remembered tracker.now) tracker.now.cannot_replace
        (seen listing.old)
        (keyed_of (layouts (map layout_of columns.now)) (all_ids_view ids.now))) }
{
    if are_flat(columns) {
        return Ok(());
    }
    list_all(listing, tracker, columns, ids)
}

// Whether no array is one of keys, or has others below it.
fn are_flat(arrays: &[AnyArray]) -> bool
    ensures { IsTrue result → HaveNoKeys arrays.now }
{
    for array in arrays {
        if !is_flat(array) {
            return false;
        }
    }
    true
}

// Whether an array is neither one of keys nor has others below it.
fn is_flat(array: &AnyArray) -> bool
    ensures below { IsTrue result
        → (is : IdTrees) → keyed_below (layout_of array.now) is ≡ [] }
    ensures own { IsTrue result
        → (id : Option ℤ) → own_keyed (layout_of array.now) id ≡ [] }
{
    match array {
        AnyArray::List(_) => false,
        AnyArray::LargeList(_) => false,
        AnyArray::FixedSizeList(_) => false,
        AnyArray::Struct(_) => false,
        AnyArray::Union(_) => false,
        AnyArray::Map(_) => false,
        AnyArray::Dictionary(_) => false,
        _ => true,
    }
}

// Visits the arrays of keys in some columns, each after those inside its values.
#[cycle(listing)]
fn list_all(
    listing: &mut Listing,
    tracker: &DictionaryTracker,
    arrays: &[AnyArray],
    ids: &[IpcField],
) -> Result<(), Fault>
    ensures listed { OnOk result (Listed (remembered tracker.now) tracker.now.cannot_replace (seen listing.old) (seen listing.new) (keyed_of (layouts (map layout_of arrays.now)) (all_ids_view ids.now))) }
    ensures refused { IfErr result (Refuses (remembered tracker.now) tracker.now.cannot_replace (seen listing.old) (keyed_of (layouts (map layout_of arrays.now)) (all_ids_view ids.now))) }
{
    for (i, array) in arrays.iter().enumerate() {
        let (id, inner) = ids_at(ids, i);
        list_field(listing, tracker, array, id, inner)?;
    }
    Ok(())
}

// Visits the arrays below an array, and then the array itself.
#[cycle(listing)]
fn list_field(
    listing: &mut Listing,
    tracker: &DictionaryTracker,
    array: &AnyArray,
    id: Option<i64>,
    inner: &[IpcField],
) -> Result<(), Fault>
    ensures listed { OnOk result (Listed (remembered tracker.now) tracker.now.cannot_replace (seen listing.old) (seen listing.new) (keyed_below (layout_of array.now) (all_ids_view inner.now) ++ own_keyed (layout_of array.now) id)) }
    ensures refused { IfErr result (Refuses (remembered tracker.now) tracker.now.cannot_replace (seen listing.old) (keyed_below (layout_of array.now) (all_ids_view inner.now) ++ own_keyed (layout_of array.now) id)) }
{
    list_all(listing, tracker, below(array), inner)?;
    list_own(listing, tracker, array, id)
}

// Visits an array itself, if it is one of keys.
fn list_own(
    listing: &mut Listing,
    tracker: &DictionaryTracker,
    array: &AnyArray,
    id: Option<i64>,
) -> Result<(), Fault>
    ensures listed { OnOk result (Listed (remembered tracker.now) tracker.now.cannot_replace (seen listing.old) (seen listing.new) (own_keyed (layout_of array.now) id)) }
    ensures refused { IfErr result (Refuses (remembered tracker.now) tracker.now.cannot_replace (seen listing.old) (own_keyed (layout_of array.now) id)) }
{
    let AnyArray::Dictionary(array) = array else {
        return Ok(());
    };
    let Some(id) = id else {
        return Err(Fault::Argument(ArgFault::FieldsShape));
    };
    listing.add(tracker, id, array)
}

// The id of the field at an index, and those of its children: none if there is no such field.
fn ids_at(ids: &[IpcField], i: usize) -> (Option<i64>, &[IpcField])
    ensures own { result.0 ≡ own_id (first_ids (all_ids_view (drop i ids.now))) }
    ensures inner { all_ids_view result.1.now ≡ inner_ids (first_ids (all_ids_view (drop i ids.now))) }
{
    match ids.get(i) {
        Some(own) => (own.dictionary_id, &own.fields),
        None => (None, &[]),
    }
}

// The arrays to which the ids inside a field belong: the children, or those of a dictionary's
// values.
fn below(array: &AnyArray) -> &[AnyArray]
    ensures same { (is : IdTrees) → keyed_of (layouts (map layout_of result.now)) is ≡ keyed_below (layout_of array.now) is }
    ensures small { heights (layouts (map layout_of result.now)) ≤ height (layout_of array.now) }
{
    match array {
        AnyArray::Dictionary(array) => below(array.values()),
        AnyArray::List(array) | AnyArray::LargeList(array) => slice::from_ref(array.values()),
        AnyArray::FixedSizeList(array) => slice::from_ref(array.values()),
        AnyArray::Map(array) => slice::from_ref(array.field()),
        AnyArray::Struct(array) => array.values(),
        AnyArray::Union(array) => array.fields(),
        _ => &[],
    }
}
