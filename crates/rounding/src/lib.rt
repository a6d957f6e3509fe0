// The range tests of the steps' results, and 64-bit words as numbers. No function has a `requires`: each
// contract holds for every f64 and every word.
#![tactic(auto)]

ghost use Rattle.std.specs.Prelude.{◌≡◌};
ghost use Rattle.std.specs.Float.{binary64};
ghost use Rattle.std.specs.Float.Ieee.{of_bits, to_bits};
ghost use Rattle.definitions.specs.Numbers.{finite};
ghost use Rattle.rounding.specs.ResultRange.{result_in_range, size_within};

mod bits;

pub use bits::Word;

// Whether x is neither a NaN nor an infinity.
pub fn is_finite(x: f64) -> bool
    ensures { result ≡ finite x }
{
    x - x == 0.0
}

// The test of a product or quotient r of x and y: finite, and above 2^-1022 unless x or y is zero.
pub fn result_in_range(x: f64, y: f64, r: f64) -> bool
    ensures { result ≡ result_in_range x y r }
{
    let finite = is_finite(r);
    let zero = (x == 0.0) | (y == 0.0);
    let large = 2.2250738585072014e-308 < r;
    finite & (zero | large)
}

// Whether x is zero, or its size is from `least` to `most`.
pub fn size_within(least: f64, most: f64, x: f64) -> bool
    ensures { result ≡ size_within least most x }
{
    let large = (x == 0.0) | (least <= x) | (x <= -least);
    let small = (x <= most) & (-most <= x);
    large & small
}

// The number whose bits are w; every NaN pattern gives the one NaN of the model.
pub fn from_word(w: u64) -> f64
    ensures { result ≡ of_bits binary64 w }
{
    if w % 0x8000_0000_0000_0000 > 0x7ff0_0000_0000_0000 {
        return 0.0 / 0.0;
    }
    f64::from_bits(w)
}

// The bits of x; a NaN is written as 0x7ff8000000000000.
pub fn to_word(x: f64) -> u64
    ensures { result ≡ to_bits binary64 x }
{
    if x != x {
        return 0x7ff8_0000_0000_0000;
    }
    f64::to_bits(x)
}
