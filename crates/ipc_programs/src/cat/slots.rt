//! Prints slots of arrays of any type.
ghost use Rattle.std.specs.Prelude.{◌+◌, ◌<◌, ◌≤◌, IfErr, OnOk, length, map};
ghost use Rattle.ipc_devices.specs.Faults.{OwnFault};
ghost use Rattle.lower_arrays.specs.AnyLayouts.{layout_of};
ghost use Rattle.lower_arrays.specs.Children.{AllReach};
ghost use Rattle.lower_arrays.specs.Layouts.{height, heights, layouts, len_of};
ghost use Rattle.lower_arrays.specs.Values.{NestedFits};
ghost use Rattle.ipc_programs.specs.Printing.{Prints};

use crate::cat::printer::{Printer, put_number, put_text};
use arrow2_ipc::array::AnyArray;
use arrow2_ipc::io::ipc::fault::{Fault, Writes};
use arrow2_ipc::types::i256;
use lower_arrays::value::{Nesting, Scalar, Value, value_at};

/// Prints slot `index` of an array.
///
/// - `null`, `true`, `false`, or a number;
/// - a text in double quotes, bytes as `h` and hexadecimal digits;
/// - the slots of a list or a map in brackets, those of a struct in braces;
/// - the slot of a union after its type id and a colon.
#[cycle(slots)]
pub fn put_slot<W: Writes>(
    printer: &mut Printer<W>,
    array: &AnyArray,
    index: usize,
) -> Result<(), Fault>
    requires { index < len_of (layout_of array.now) }
    ensures only { IfErr result (λ e. OwnFault e ⊥) }
    ensures prints { OnOk result (Prints W.device printer.old printer.new) }
{
    match value_at(array, index) {
        Value::Null => printer.put(b"null"),
        Value::Truth(true) => printer.put(b"true"),
        Value::Truth(false) => printer.put(b"false"),
        Value::Number(number) => put_scalar(printer, number),
        Value::Bytes(bytes) => {
            printer.put(b"h")?;
            put_digits(printer, bytes)
        }
        Value::Text(text) => put_text(printer, text.as_bytes()),
        Value::Nested(nesting, children, place) => put_nested(printer, nesting, children, place),
    }
}

// Prints the slots of a nested type.
#[cycle(slots)]
fn put_nested<W: Writes>(
    printer: &mut Printer<W>,
    nesting: Nesting,
    children: &[AnyArray],
    place: usize,
) -> Result<(), Fault>
    requires { NestedFits nesting children.now place }
    ensures only { IfErr result (λ e. OwnFault e ⊥) }
    ensures prints { OnOk result (Prints W.device printer.old printer.new) }
{
    match nesting {
        Nesting::List(len) => put_list(printer, &children[0], place, len),
        Nesting::Record => put_record(printer, children, place),
        Nesting::Variant(id) => {
            put_number(printer, id)?;
            printer.put(b":")?;
            put_slot(printer, &children[0], place)
        }
    }
}

// Prints `len` slots of a child from the index `place` on.
#[cycle(slots)]
fn put_list<W: Writes>(
    printer: &mut Printer<W>,
    child: &AnyArray,
    place: usize,
    len: usize,
) -> Result<(), Fault>
    requires { place + len ≤ len_of (layout_of child.now) }
    ensures only { IfErr result (λ e. OwnFault e ⊥) }
    ensures prints { OnOk result (Prints W.device printer.old printer.new) }
{
    // for the proof alone: `place + index` doesn't overflow, as the child has so many slots
    let _slots = child.len();
    printer.put(b"[")?;
    for index in 0..len {
        put_comma(printer, index)?;
        put_slot(printer, child, place + index)?;
    }
    printer.put(b"]")
}

// A child, which has this slot.
#[tactic(auto, using(lower_arrays::proofs::Children::height_at, lower_arrays::proofs::Children::reach_at))]
fn child_with(children: &[AnyArray], index: usize, place: usize) -> &AnyArray
    requires inside { index < length children.now }
    requires within { AllReach (place + 1) (layouts (map layout_of children.now)) }
    ensures reach { place < len_of (layout_of result.now) }
    ensures height { height (layout_of result.now) < heights (layouts (map layout_of children.now)) }
{
    &children[index]
}

// Prints a slot of each child.
#[cycle(slots)]
fn put_record<W: Writes>(
    printer: &mut Printer<W>,
    children: &[AnyArray],
    place: usize,
) -> Result<(), Fault>
    requires { AllReach (place + 1) (layouts (map layout_of children.now)) }
    ensures only { IfErr result (λ e. OwnFault e ⊥) }
    ensures prints { OnOk result (Prints W.device printer.old printer.new) }
{
    printer.put(b"{")?;
    for index in 0..children.len() {
        put_comma(printer, index)?;
        put_slot(printer, child_with(children, index, place), place)?;
    }
    printer.put(b"}")
}

// Prints the separator before each but the first.
fn put_comma<W: Writes>(printer: &mut Printer<W>, index: usize) -> Result<(), Fault>
    ensures only { IfErr result (λ e. OwnFault e ⊥) }
    ensures prints { OnOk result (Prints W.device printer.old printer.new) }
{
    if index == 0 {
        return Ok(());
    }
    printer.put(b", ")
}

// Prints an integer in decimal or, of 256 bits, in hexadecimal, and parts in parentheses.
fn put_scalar<W: Writes>(printer: &mut Printer<W>, number: Scalar) -> Result<(), Fault>
    ensures only { IfErr result (λ e. OwnFault e ⊥) }
    ensures prints { OnOk result (Prints W.device printer.old printer.new) }
{
    match number {
        Scalar::Whole(number) => put_number(printer, number),
        Scalar::Wide(number) => put_wide(printer, number),
        Scalar::DayTime(time) => {
            printer.put(b"(")?;
            put_number(printer, time.days)?;
            printer.put(b", ")?;
            put_number(printer, time.milliseconds)?;
            printer.put(b")")
        }
        Scalar::MonthDayNano(time) => {
            printer.put(b"(")?;
            put_number(printer, time.months)?;
            printer.put(b", ")?;
            put_number(printer, time.days)?;
            printer.put(b", ")?;
            put_number(printer, time.nanoseconds)?;
            printer.put(b")")
        }
    }
}

// Prints a number of 256 bits: `0x` and 64 digits in two's complement, highest first.
fn put_wide<W: Writes>(printer: &mut Printer<W>, number: i256) -> Result<(), Fault>
    ensures only { IfErr result (λ e. OwnFault e ⊥) }
    ensures prints { OnOk result (Prints W.device printer.old printer.new) }
{
    printer.put(b"0x")?;
    put_digits(printer, &number.high.to_be_bytes())?;
    put_digits(printer, &number.low.to_be_bytes())
}

// Prints each byte as two hexadecimal digits.
fn put_digits<W: Writes>(printer: &mut Printer<W>, bytes: &[u8]) -> Result<(), Fault>
    ensures only { IfErr result (λ e. OwnFault e ⊥) }
    ensures prints { OnOk result (Prints W.device printer.old printer.new) }
{
    for byte in bytes {
        printer.put_byte(*byte)?;
    }
    Ok(())
}
