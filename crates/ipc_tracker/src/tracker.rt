//! The values of dictionaries that were written last.
ghost use Rattle.std.specs.Prelude.{◌≡◌, ◌↔◌, ◌+◌, ◌<◌, ◌≤◌, ℤ, length, map, IsTrue, IfErr, OnErr, OnOk};
ghost use Rattle.std.specs.HashMap.{spare};
ghost use Rattle.ipc_devices.specs.declared.fault.ArgFault.TheVariants.{DictionaryReplaced};
ghost use Rattle.ipc_devices.specs.declared.fault.Fault.TheVariants.{Argument, Memory};
ghost use Rattle.lower_arrays.specs.AnyLayouts.{layout_of};
ghost use Rattle.lower_arrays.specs.Dictionaries.{HasKeys};
ghost use Rattle.lower_arrays.specs.Layouts.{level};
ghost use Rattle.ipc_tracker.specs.Trackers.{dictionary_of, nothing_remembered, remembered, remembering, values_in, Asks, Inserts, IsSameMemory, TellsReplaced};
ghost use Rattle.ipc_tracker.specs.Listings.{listed, remembering_all};

use ipc_devices::{ArgFault, Fault};
use lower::datatypes::{is_same_normal_type, is_same_type};
use lower_arrays::array::{AnyArray, DictionaryArray};
use lower_arrays::equal;
use lower_flat_arrays::equality::has_same_slots;
use std::alloc::Global;
use std::collections::HashMap;
use std::sync::Arc;

/// Returns whether two arrays are the same values of a dictionary.
///
/// They are if they have the same slots, and the same data type in normal form. Their layouts in
/// memory may differ.
pub fn is_same_values(lhs: &AnyArray, rhs: &AnyArray) -> bool
    ensures { IsTrue result
        ↔ (dictionary_of (layout_of lhs.now) ≡ dictionary_of (layout_of rhs.now)) }
{
    if is_same_type(lhs.data_type(), rhs.data_type()) {
        return equal(lhs, rhs);
    }
    is_same_normal_type(lhs.data_type(), rhs.data_type()) && has_same_slots(lhs, rhs)
}

/// The values of a dictionary that must be written.
///
/// Arrow columnar format, "Dictionary Messages".
#[derive(Drop)]
pub struct NewDictionary {
    /// The id of the dictionary.
    pub id: i64,
    /// The values, which share their memory with the array that they come from.
    pub values: Arc<AnyArray>,
}

/// The values that were written last under each dictionary id.
///
/// A writer uses it to find which values must be written. Arrow columnar format, "Dictionary
/// Messages".
#[derive(Drop)]
pub struct DictionaryTracker {
    /// The values by id, which share memory with the arrays they come from.
    pub dictionaries: HashMap<i64, Arc<AnyArray>>,
    /// Whether the values of an id must not be replaced, as in a file.
    pub cannot_replace: bool,
}

impl DictionaryTracker {
    /// Returns a tracker without values. It allocates nothing.
    pub fn new(alloc: Global, cannot_replace: bool) -> DictionaryTracker
        ensures empty { (id : ℤ) → remembered result id ≡ nothing_remembered id }
        ensures fixed { result.cannot_replace ≡ cannot_replace }
    {
        DictionaryTracker {
            dictionaries: HashMap::new(alloc),
            cannot_replace,
        }
    }

    /// Records the values of a dictionary, and returns whether they must be written.
    ///
    /// They must if the id is new, or its values differ in a slot or in the data type in normal
    /// form. The array must be a dictionary ([`is_dictionary`]). Errors:
    ///
    /// - `Fault::Argument(ArgFault::DictionaryReplaced(dict_id))`: the values differ, and
    ///   `cannot_replace` is set.
    /// - `Fault::Memory`: an allocation failed. Values that are already recorded need none.
    ///
    /// After an error the tracker is unchanged.
    pub fn insert(&mut self, dict_id: i64, array: &AnyArray) -> Result<bool, Fault>
        requires { HasKeys (level (layout_of array.now)).parts }
        ensures inserted { Inserts (remembered self.old) self.old.cannot_replace dict_id
            (dictionary_of (values_in (layout_of array.now))) result (remembered self.new) }
        ensures told { TellsReplaced (remembered self.old) self.old.cannot_replace dict_id
            (dictionary_of (values_in (layout_of array.now))) result }
        ensures fixed { self.new.cannot_replace ≡ self.old.cannot_replace }
    {
        match array {
            AnyArray::Dictionary(array) => self.insert_values(dict_id, array),
            _ => unreachable!(),
        }
    }

    // Records the values of a dictionary, and returns whether they are new or differ.
    fn insert_values(&mut self, id: i64, array: &DictionaryArray) -> Result<bool, Fault>
        ensures inserted { Inserts (remembered self.old) self.old.cannot_replace id (dictionary_of array.now.values) result (remembered self.new) }
        ensures told { TellsReplaced (remembered self.old) self.old.cannot_replace id (dictionary_of array.now.values) result }
        ensures fixed { self.new.cannot_replace ≡ self.old.cannot_replace }
    {
        let changed = self.is_changed(id, array.values())?;
        if !changed {
            return Ok(false);
        }
        let values = array.shared_values()?;
        self.put(id, values)?;
        Ok(true)
    }

    // Whether the values are new under an id, or differ from those that are recorded.
    pub(crate) fn is_changed(&self, id: i64, values: &AnyArray) -> Result<bool, Fault>
        ensures asks { Asks (remembered self.now) self.now.cannot_replace id (dictionary_of (layout_of values.now)) result }
        ensures only { IfErr result (λ fault. fault ≡ Argument (DictionaryReplaced id)) }
    {
        let Some(last) = self.dictionaries.get(&id) else {
            return Ok(true);
        };
        if is_same_values(last, values) {
            return Ok(false);
        }
        if self.cannot_replace {
            return Err(Fault::Argument(ArgFault::DictionaryReplaced(id)));
        }
        Ok(true)
    }

    // Records values.
    fn put(&mut self, id: i64, values: Arc<AnyArray>) -> Result<(), Fault>
        ensures put { OnOk result (IsSameMemory (remembering id (dictionary_of (layout_of values.value)) (remembered self.old)) (remembered self.new)) }
        ensures kept { OnErr result (IsSameMemory (remembered self.old) (remembered self.new)) }
        ensures only { IfErr result (λ fault. fault ≡ Memory) }
        ensures fixed { self.new.cannot_replace ≡ self.old.cannot_replace }
    {
        self.dictionaries.insert(id, values)?;
        Ok(())
    }

    /// Makes room for `additional` ids, so that [`DictionaryTracker::remember_all`] can't fail.
    ///
    /// The recorded values are unchanged. The only error is `Fault::Memory`.
    pub fn make_room(&mut self, additional: usize) -> Result<(), Fault>
        ensures room { OnOk result (additional ≤ spare self.new.dictionaries) }
        ensures same { IsSameMemory (remembered self.old) (remembered self.new) }
        ensures only { IfErr result (λ fault. fault ≡ Memory) }
        ensures fixed { self.new.cannot_replace ≡ self.old.cannot_replace }
    {
        self.dictionaries.reserve(additional)?;
        Ok(())
    }

    /// Records values that were written, in order.
    ///
    /// There must be room for them, which [`DictionaryTracker::make_room`] makes.
    pub fn remember_all(&mut self, list: Vec<NewDictionary>)
        requires { length list.items ≤ spare self.old.dictionaries }
        ensures memory { IsSameMemory (remembering_all (map listed list.items)
            (remembered self.old)) (remembered self.new) }
        ensures fixed { self.new.cannot_replace ≡ self.old.cannot_replace }
    {
        for dictionary in list {
            self.remember(dictionary);
        }
    }

    // Records values for which there is room.
    fn remember(&mut self, dictionary: NewDictionary)
        requires { 0 < spare self.old.dictionaries }
        ensures memory { IsSameMemory (remembering dictionary.id (dictionary_of (layout_of dictionary.values.value)) (remembered self.old)) (remembered self.new) }
        ensures room { spare self.old.dictionaries ≤ spare self.new.dictionaries + 1 }
        ensures fixed { self.new.cannot_replace ≡ self.old.cannot_replace }
    {
        let NewDictionary { id, values } = dictionary;
        let _ = self.dictionaries.insert(id, values);
    }
}
