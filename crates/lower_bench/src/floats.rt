//! Floats of their bits.

use lower::floats::{f16_of_bits, f32_of_bits, f64_of_bits};
use std::test::Fail;

// Bits of 16, and their numbers (IEEE 754, binary16).
const HALVES: [(u16, f32); 13] = [
    (0x0000, 0.0),
    (0x8000, -0.0),
    (0x3C00, 1.0),
    (0xBC00, -1.0),
    (0x3C01, 1.0009765625),
    (0x3BFF, 0.99951171875),
    (0x3555, 0.333251953125),
    (0x7BFF, 65504.0),
    // 2 ^ -14, the least with a leading 1
    (0x0400, 0.00006103515625),
    // 1023 * 2 ^ -24 and 2 ^ -24, without a leading 1
    (0x03FF, 0.000060975551605224609375),
    (0x0001, 0.000000059604644775390625),
    (0x7C00, f32::INFINITY),
    (0xFC00, f32::NEG_INFINITY),
];

#[test]
fn halves_have_their_numbers(rt: HostRuntime) -> Result<(), Fail> {
    for (bits, number) in HALVES {
        let read = f16_of_bits(bits);
        assert!(rt; read == number, "{bits}");
        assert!(rt;
            read.is_sign_negative() == number.is_sign_negative(),
            "{bits}"
        );
    }
    Ok(())
}

// Bits of 32, and their numbers (IEEE 754, binary32).
const SINGLES: [(u32, f32); 9] = [
    (0x0000_0000, 0.0),
    (0x8000_0000, -0.0),
    (0x3F80_0000, 1.0),
    (0xC049_0FDB, -3.1415927),
    (0x7F7F_FFFF, f32::MAX),
    (0x0080_0000, f32::MIN_POSITIVE),
    // 2 ^ -149
    (0x0000_0001, 1e-45),
    (0x7F80_0000, f32::INFINITY),
    (0xFF80_0000, f32::NEG_INFINITY),
];

#[test]
fn singles_have_their_numbers(rt: HostRuntime) -> Result<(), Fail> {
    for (bits, number) in SINGLES {
        let read = f32_of_bits(bits);
        assert!(rt; read == number, "{bits}");
        assert!(rt;
            read.is_sign_negative() == number.is_sign_negative(),
            "{bits}"
        );
    }
    Ok(())
}

// Bits of 64, and their numbers (IEEE 754, binary64).
const DOUBLES: [(u64, f64); 9] = [
    (0x0000_0000_0000_0000, 0.0),
    (0x8000_0000_0000_0000, -0.0),
    (0x3FF0_0000_0000_0000, 1.0),
    (0xC009_21FB_5444_2D18, -3.141592653589793),
    (0x7FEF_FFFF_FFFF_FFFF, f64::MAX),
    (0x0010_0000_0000_0000, f64::MIN_POSITIVE),
    // 2 ^ -1074
    (0x0000_0000_0000_0001, 5e-324),
    (0x7FF0_0000_0000_0000, f64::INFINITY),
    (0xFFF0_0000_0000_0000, f64::NEG_INFINITY),
];

#[test]
fn doubles_have_their_numbers(rt: HostRuntime) -> Result<(), Fail> {
    for (bits, number) in DOUBLES {
        let read = f64_of_bits(bits);
        assert!(rt; read == number, "{bits}");
        assert!(rt;
            read.is_sign_negative() == number.is_sign_negative(),
            "{bits}"
        );
    }
    Ok(())
}

// Quiet ones with and without a payload and a sign, and a signaling one.
const NAN_HALVES: [u16; 4] = [0x7E00, 0x7E01, 0xFE00, 0x7C01];

const NAN_SINGLES: [u32; 4] = [0x7FC0_0000, 0x7FC0_0001, 0xFFC0_0000, 0x7F80_0001];

const NAN_DOUBLES: [u64; 4] = [
    0x7FF8_0000_0000_0000,
    0x7FF8_0000_0000_0001,
    0xFFF8_0000_0000_0000,
    0x7FF0_0000_0000_0001,
];

#[test]
fn bits_of_a_nan_give_a_nan(rt: HostRuntime) -> Result<(), Fail> {
    for bits in NAN_HALVES {
        assert!(rt; f16_of_bits(bits).is_nan(), "{bits}");
    }
    for bits in NAN_SINGLES {
        assert!(rt; f32_of_bits(bits).is_nan(), "{bits}");
    }
    for bits in NAN_DOUBLES {
        assert!(rt; f64_of_bits(bits).is_nan(), "{bits}");
    }
    Ok(())
}
