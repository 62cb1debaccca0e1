// DPT 9: hundredths, exact in 32-bit floating point, and one division by 100.
ghost use Rattle.std.specs.Prelude.{◌≡◌, unsigned_abs};
ghost use Rattle.dpt.specs.TwoOctet.{hundredths, IsWhole, two_octet};

use std::num::nearest_i32_to_f32;

// The size of the hundredths.
fn magnitude(high: u8, low: u8) -> u32
    ensures { result ≡ unsigned_abs (hundredths high low) }
{
    let exponent = high / 8 % 16;
    let eleven_bits = high as u32 % 8 * 256 + low as u32;
    if high >= 128 {
        (2048 - eleven_bits) << exponent
    } else {
        eleven_bits << exponent
    }
}

fn in_hundredths(high: u8, low: u8) -> i32
    ensures { result ≡ hundredths high low }
{
    let size = magnitude(high, low) as i32;
    if high >= 128 { -size } else { size }
}

// The hundredths, exactly. `as` is undefined above 2 ^ 24 here, and they reach 2 ^ 26. `nearest_i32_to_f32` rounds, and
// finds nothing to round.
fn exact(high: u8, low: u8) -> f32
    ensures { IsWhole result (hundredths high low) }
{
    nearest_i32_to_f32(in_hundredths(high, low))
}

// The reading: rounded once, by the division. 7FFF is told apart before.
pub fn two_octet(high: u8, low: u8) -> f32
    ensures { result ≡ two_octet high low }
{
    exact(high, low) / 100.0
}
