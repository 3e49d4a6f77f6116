// Between a double and its pattern: the one NaN that there is stands for every NaN's pattern.
#![tactic(auto)]

ghost use Rattle.std.specs.Prelude.{◌≡◌};
ghost use Rattle.std.specs.Float.{binary64};
ghost use Rattle.std.specs.Float.Ieee.{of_bits, to_bits};

// The double of a pattern; each NaN's pattern gives the one NaN, which 0 / 0 is. Refuses nothing.
// 3FF0 0000 0000 0000 gives 1; 7FF0 0000 0000 0001 gives the NaN.
pub fn double(bits: u64) -> f64
    ensures { result ≡ of_bits binary64 bits }
{
    if bits % 0x8000_0000_0000_0000 <= 0x7ff0_0000_0000_0000 {
        f64::from_bits(bits)
    } else {
        0.0 / 0.0
    }
}

// The pattern of a double. Refuses nothing.
// 1 gives 3FF0 0000 0000 0000; a NaN gives 7FF8 0000 0000 0000.
pub fn pattern(x: f64) -> u64
    ensures { result ≡ to_bits binary64 x }
{
    if x != x {
        0x7ff8_0000_0000_0000
    } else {
        f64::to_bits(x)
    }
}
