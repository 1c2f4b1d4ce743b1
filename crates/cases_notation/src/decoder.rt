//! Decodes the JSON parts of a case.

use crate::failure::Failure;
use ipc_devices::fault::Fault;
use serde_json::Value;
use std::alloc::Global;

/// Decodes the parts of a case, and remembers the first failure. After one its methods return
/// default values, so that a function that decodes has one way through; `finish` reports the
/// failure.
#[derive(Drop)]
pub struct Decoder {
    alloc: Global,
    failure: Option<Failure>,
}

impl Decoder {
    /// A decoder without a failure.
    pub fn new(alloc: Global) -> Decoder {
        Decoder {
            alloc,
            failure: None,
        }
    }

    /// The allocator of what is decoded.
    pub fn alloc(&self) -> Global {
        self.alloc
    }

    /// The first failure, where there was one.
    pub fn finish(self) -> Result<(), Failure> {
        match self.failure {
            None => Ok(()),
            Some(failure) => Err(failure),
        }
    }

    /// Remembers a failure, unless there was one before.
    pub fn fail(&mut self, failure: Failure) {
        if self.failure.is_none() {
            self.failure = Some(failure);
        }
    }

    /// Remembers that the part of this name isn't in the notation.
    pub fn miss(&mut self, part: &'static str) {
        self.fail(Failure::Notation(part));
    }

    /// The value of a call, or none where it failed.
    pub fn take<T: Drop, E>(&mut self, answer: Result<T, E>) -> Option<T>
    where
        Failure: From<E>,
    {
        match answer {
            Ok(value) => Some(value),
            Err(error) => {
                self.fail(Failure::from(error));
                None
            }
        }
    }

    /// A value that has to be there: the part of this name.
    pub fn need<T: Drop>(&mut self, value: Option<T>, part: &'static str) -> Option<T> {
        if value.is_none() {
            self.miss(part);
        }
        value
    }

    /// An empty list.
    pub fn list<T>(&self) -> Vec<T> {
        Vec::new(self.alloc)
    }

    /// Appends an item. A failed allocation is recorded as the failure.
    pub fn push<T: Drop>(&mut self, list: &mut Vec<T>, item: T) {
        if list.push(item).is_err() {
            self.out_of_memory();
        }
    }

    /// Appends bytes. A failed allocation is recorded as the failure.
    pub fn extend(&mut self, list: &mut Vec<u8>, bytes: &[u8]) {
        if list.extend_from_slice(bytes).is_err() {
            self.out_of_memory();
        }
    }

    /// The value in a box. A failed allocation is recorded as the failure, and gives None.
    pub fn boxed<T: Drop>(&mut self, value: T) -> Option<Box<T>> {
        let held = Box::new(self.alloc, value);
        self.take(held)
    }

    /// A text of its own.
    pub fn owned(&mut self, text: &str) -> String {
        match String::from_str(self.alloc, text) {
            Ok(text) => text,
            Err(_) => {
                self.out_of_memory();
                String::new(self.alloc)
            }
        }
    }

    fn out_of_memory(&mut self) {
        self.fail(Failure::Refused(Fault::Memory));
    }

    /// The member of this name. A failure gives the value itself.
    pub fn member<'v>(&mut self, value: &'v Value, name: &'static str) -> &'v Value {
        match value.get(name) {
            Some(member) => member,
            None => {
                self.miss(name);
                value
            }
        }
    }

    /// The items of the list that is the part of this name.
    pub fn items<'v>(&mut self, value: Option<&'v Value>, name: &'static str) -> &'v [Value] {
        match value {
            Some(Value::Array(items)) => items.as_slice(),
            _ => {
                self.miss(name);
                &[]
            }
        }
    }

    /// The first two items of the list that is the part of this name. A failure gives the value
    /// itself, twice.
    pub fn both<'v>(&mut self, value: &'v Value, name: &'static str) -> (&'v Value, &'v Value) {
        match self.items(Some(value), name) {
            [first, second, ..] => (first, second),
            _ => {
                self.miss(name);
                (value, value)
            }
        }
    }

    /// The text that is the part of this name.
    pub fn text<'v>(&mut self, value: Option<&'v Value>, name: &'static str) -> &'v str {
        match value {
            Some(Value::String(text)) => text.as_str(),
            _ => {
                self.miss(name);
                ""
            }
        }
    }

    /// The same as a text of its own.
    pub fn string(&mut self, value: Option<&Value>, name: &'static str) -> String {
        let text = self.text(value, name);
        self.owned(text)
    }

    /// The boolean that is the part of this name.
    pub fn truth(&mut self, value: Option<&Value>, name: &'static str) -> bool {
        match value {
            Some(Value::Bool(truth)) => *truth,
            _ => {
                self.miss(name);
                false
            }
        }
    }

    /// The whole number that is the part of this name. One that 64 bits don't hold is a text of
    /// digits.
    pub fn whole(&mut self, value: Option<&Value>, name: &'static str) -> i128 {
        let number = match value {
            Some(Value::Number(number)) => number.as_i128(),
            Some(Value::String(digits)) => digits.as_str().parse().ok(),
            _ => None,
        };
        match number {
            Some(number) => number,
            None => {
                self.miss(name);
                0
            }
        }
    }

    /// The whole number of some type that is the part of this name.
    pub fn number<T: TryFrom<i128> + Default>(
        &mut self,
        value: Option<&Value>,
        name: &'static str,
    ) -> T
    where
        T::Error: Drop,
    {
        match T::try_from(self.whole(value, name)) {
            Ok(number) => number,
            Err(_) => {
                self.miss(name);
                T::default()
            }
        }
    }

    /// The count or index that is the part of this name.
    pub fn count(&mut self, value: Option<&Value>, name: &'static str) -> usize {
        self.number(value, name)
    }

    /// One of the values that have a name in a table: the part of this name. `other` is what a
    /// failure gives.
    pub fn choice<T: Copy>(
        &mut self,
        value: Option<&Value>,
        names: &[(&'static str, T)],
        part: &'static str,
        other: T,
    ) -> T {
        match named(names, self.text(value, part)) {
            Some(meant) => meant,
            None => {
                self.miss(part);
                other
            }
        }
    }
}

/// Whether the part of this name, which may be left out, is there and true.
pub fn is_set(value: &Value, name: &str) -> bool {
    matches!(value.get(name), Some(Value::Bool(true)))
}

/// The value beside a name in a table, where the table has the name.
pub fn named<T: Copy>(names: &[(&'static str, T)], wanted: &str) -> Option<T> {
    for (name, meant) in names {
        if *name == wanted {
            return Some(*meant);
        }
    }
    None
}
