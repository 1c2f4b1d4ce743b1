//! Floats of their bits, as columns of bits have them.
//!
//! All bits have a float. Those of a NaN give a NaN of no particular sign and payload.
ghost use Rattle.std.specs.Prelude.{◌≡◌, ◌+◌, ◌*◌, ◌/◌, ◌%◌, ◌^◌, ◌<◌, false, from_bits};
ghost use Rattle.std.specs.Float.{binary32, binary64};
ghost use Rattle.std.specs.Float.Ieee.{round};
ghost use Rattle.lower.specs.Halves.{half_size, half_value};

use std::num::{f32_from_bits_with_nan, f64_from_bits_with_nan, nearest_u64_to_f32};

/// Returns the `Float64` with these bits (IEEE 754, binary64).
pub fn f64_of_bits(bits: u64) -> f64
    ensures { result ≡ from_bits binary64 bits }
{
    f64_from_bits_with_nan(bits)
}

/// Returns the `Float32` with these bits (IEEE 754, binary32).
pub fn f32_of_bits(bits: u32) -> f32
    ensures { result ≡ from_bits binary32 bits }
{
    f32_from_bits_with_nan(bits)
}

/// Returns the number of the `Float16` with these bits (IEEE 754, binary16), in 32 bits.
///
/// Nothing is rounded.
pub fn f16_of_bits(bits: u16) -> f32
    ensures { result ≡ half_value bits }
{
    let size = half_size(bits / 1024 % 32, bits % 1024);
    if 0x8000 <= bits { -size } else { size }
}

// The number without its sign.
fn half_size(exponent: u16, fraction: u16) -> f32
    requires exponent { exponent < 32 }
    requires fraction { fraction < 1024 }
    ensures { result ≡ half_size exponent fraction }
{
    if exponent == 31 {
        if fraction == 0 {
            f32::INFINITY
        } else {
            f32::NAN
        }
    } else if exponent == 0 {
        scaled(fraction, 0)
    } else {
        scaled(1024 + fraction, exponent - 1)
    }
}

// A significand times 2 ^ (shift - 24).
fn scaled(significand: u16, shift: u16) -> f32
    requires significand { significand < 2048 }
    requires shift { shift < 30 }
    ensures { result ≡ round binary32 false (significand * 2 ^ shift) (2 ^ 24) }
{
    nearest_u64_to_f32((significand as u64) << shift) / 16_777_216.0
}
