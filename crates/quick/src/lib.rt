// A quick pass of questions 6, 7 and 8 of document 01. It can only say yes: a no leaves open whether the
// questions pass. There is no branch in its tests, so that a loop over many numbers is fast.
#![tactic(auto)]

ghost use Rattle.std.specs.Prelude.{◌≡◌, T};
ghost use Rattle.definitions.specs.Questions.{pass, place_questions};
ghost use Rattle.quick.specs.QuickPass.{DiagonalPasses, PartWithin, StretchPasses, SizesPass, WeightsPass};

use shape::sheets::{Sheet, Whole};

// Questions 6, 7 and 8 of the diagonal: each number is zero (reading 1), or from 2^-1022 to the largest number.
fn diagonal_passes(reading: usize, sheet: Sheet<'_>) -> bool
    ensures { T result → DiagonalPasses reading sheet.entry.n sheet.entry.numbers.now }
{
    let mut good = true;
    for i in 0..sheet.n {
        let x = sheet.number_at(i, i);
        good &= ((x == 0.0) & (reading == 1))
            | ((2.2250738585072014e-308 <= x) & (x <= 1.7976931348623157e308));
    }
    good
}

// Whether each number of a part is from `low` to `high`, or zero where zeros count: one loop for rates and weights.
fn part_within(zeros: bool, low: f64, high: f64, part: &[f64]) -> bool
    ensures { T result → PartWithin zeros low high part.now }
{
    let mut good = true;
    for &x in part {
        good &= ((x == 0.0) & zeros) | ((low <= x) & (x <= high));
    }
    good
}

// The same questions of numbers off the diagonal: each is zero, or from minus the largest number to -2^-1022.
fn stretch_passes(part: &[f64]) -> bool
    ensures { T result → StretchPasses part.now }
{
    part_within(
        true,
        -1.7976931348623157e308,
        -2.2250738585072014e-308,
        part,
    )
}

// And of weights: each is from 2^-1022 to the largest number.
fn weights_pass(weights: &[f64]) -> bool
    ensures { T result → WeightsPass weights.now }
{
    part_within(
        false,
        2.2250738585072014e-308,
        1.7976931348623157e308,
        weights,
    )
}

// All numbers off the diagonal: the n numbers before each of its places but the first.
fn sizes_pass(sheet: Sheet<'_>) -> bool
    ensures { T result → SizesPass sheet.entry.n sheet.entry.numbers.now }
{
    for i in 1..sheet.n {
        let to = i * sheet.n + i;
        let from = to - sheet.n;
        if !stretch_passes(&sheet.numbers[from..to]) {
            return false;
        }
    }
    true
}

// Whether questions 6, 7 and 8 pass, as far as the quick pass can tell. What a no means is left open; after a
// yes they do pass.
pub fn sheet_passes(whole: Whole<'_>) -> bool
    ensures { let sheet = whole.entry.sheet in T result → place_questions whole.entry.reading sheet.n sheet.numbers.now ≡ pass }
{
    if !diagonal_passes(whole.reading, whole.sheet) {
        return false;
    }
    if !sizes_pass(whole.sheet) {
        return false;
    }
    weights_pass(whole.sheet.weights())
}
