//! Floats by their bits.
//!
//! No clause says what a float prints: it is the text of `ryu`, which reads back as the float.
ghost use Rattle.std.specs.Prelude.{◌≡◌, ◌<◌, SomeIff};
ghost use Rattle.std.specs.Option.{option_map};
ghost use Rattle.lower_arrays.specs.Layouts.{len_of};
ghost use Rattle.lower_arrays.specs.Slots.{slot_at};
ghost use Rattle.lower_arrays.specs.AnyLayouts.{layout_of};
ghost use Rattle.lower_display.specs.Floats.{float_slots, float_type, float_null, float_slot};

use lower::floats::{f16_of_bits, f32_of_bits, f64_of_bits};
use lower_arrays::array::AnyArray;
use lower_arrays::value::{Scalar, Value};
use ryu::Buffer;
use std::fmt;

/// A float type: how many bits its numbers have.
#[derive(Debug, Clone, Copy)]
pub enum FloatType {
    Float16,
    Float32,
    Float64,
}

/// A column of floats by their bits, whose slots print as floats.
#[derive(Clone, Copy)]
pub struct FloatDisplay<'a> {
    array: &'a AnyArray,
    float: FloatType,
    null: &'a str,
}

/// A float by its bits, or a null, that prints.
#[derive(Debug, Clone, Copy)]
pub struct FloatSlot<'a> {
    value: Value<'a>,
    float: FloatType,
    null: &'a str,
}

/// Returns a column that was read with floats as bits as one whose slots print as floats.
///
/// The column has the unsigned integers of the width of `float`. A float prints as the shortest
/// text that reads back as the same float, `NaN` or `inf`; a null is `null`.
pub fn get_float_display<'a>(
    array: &'a AnyArray,
    float: FloatType,
    null: &'a str,
) -> FloatDisplay<'a>
    ensures slots { float_slots result ≡ layout_of array.now }
    ensures prints { (float_type result ≡ float) × (float_null result ≡ null.now) }
{
    FloatDisplay { array, float, null }
}

impl<'a> FloatDisplay<'a> {
    /// Returns the slot at `index`, which prints, or `None` if `index` isn't below the length.
    pub fn slot(&self, index: usize) -> Option<FloatSlot<'a>>
        ensures { SomeIff (option_map float_slot result)
            (index < len_of (float_slots self.now))
            (slot_at (float_slots self.now) index) }
    {
        match self.array.slot(index) {
            Some(value) => Some(FloatSlot {
                value,
                float: self.float,
                null: self.null,
            }),
            None => None,
        }
    }
}

impl fmt::Display for FloatSlot<'_> {
    fn fmt<W: fmt::Write>(&self, f: &mut fmt::Formatter<W>) -> fmt::Result {
        match self.value {
            Value::Number(Scalar::Whole(bits)) => write_bits(bits, self.float, f),
            _ => f.write_str(self.null),
        }
    }
}

// Writes the float with these bits; other numbers, which no such column has, as integers.
fn write_bits<W: fmt::Write>(
    bits: i128,
    float: FloatType,
    f: &mut fmt::Formatter<W>,
) -> fmt::Result {
    let mut buffer = Buffer::new();
    match (float, u64::try_from(bits)) {
        (FloatType::Float64, Ok(bits)) => f.write_str(buffer.format(f64_of_bits(bits))),
        (FloatType::Float32, Ok(bits)) if bits <= 0xffff_ffff => {
            f.write_str(buffer.format(f32_of_bits(bits as u32)))
        }
        (FloatType::Float16, Ok(bits)) if bits <= 0xffff => {
            f.write_str(buffer.format(f16_of_bits(bits as u16)))
        }
        _ => write!(f, "{bits}"),
    }
}
