// Moving a sheet to another time unit (document 02, U4, U5 and U10): every rate times 2^k and the weights as they are, in
// a second lent area. The service has no `requires`: its questions are asked in order, and a no ends the call with no place changed.
#![tactic(auto)]

ghost use Rattle.std.specs.Prelude.{◌+◌, ◌≤◌, map, ◌++◌, ◌≡◌, length, get_or};
ghost use Rattle.std.specs.Float.{nan};
ghost use Rattle.definitions.specs.Numbers.{◌⊗◌, all};
ghost use Rattle.definitions.specs.Questions.{pass, ask};
ghost use Rattle.definitions.specs.Services.{filled};
ghost use Rattle.definitions.specs.Moving.{times_power};
ghost use Rattle.rounding.specs.Scaling.{power};
ghost use Rattle.rounding.specs.ResultRange.{size_within};
ghost use Rattle.moving.specs.Promises.{have_room, Movable, MoveDone};

use answers::{Question, Refusal};
use shape::sheets::{Lent, Sheet};

// Whether every number is zero, or of a size from `least` to `most`.
fn sizes_within(least: f64, most: f64, numbers: &[f64]) -> bool
    ensures { result ≡ all (λ at. size_within least most (get_or numbers.now at nan)) 0 (length numbers.now) }
{
    let mut good = true;
    for number in numbers {
        good = good & rounding::size_within(least, most, *number);
    }
    good
}

// Question 16, of the exact products: instead of each number the limit that it moves towards is moved, which is exact,
// and no product is rounded. The other limit holds already: a finite number is at most the largest, and question 8 passed.
fn has_room(k: i64, power: f64, numbers: &[f64]) -> bool
    requires { Movable k power numbers.now }
    ensures { result ≡ have_room k numbers.now }
{
    if k < 0 {
        return sizes_within(
            2.2250738585072014e-308 / power,
            1.7976931348623157e308,
            numbers,
        );
    }
    sizes_within(0.0, 1.7976931348623157e308 / power, numbers)
}

// Every number times the power, in the first places of the area.
fn times_power(power: f64, numbers: &[f64], area: &mut [f64])
    requires { length numbers.now ≤ length area.old }
    ensures { area.new ≡ filled pass (map (λ number. number ⊗ power) numbers.now) area.old }
{
    for (i, number) in numbers.iter().enumerate() {
        area[i] = *number * power;
    }
}

// The weights, in the first places of the area; one by one, since the library's copy needs `memmove`, which the archive for
// C does without.
fn copy(weights: &[f64], area: &mut [f64])
    requires { length weights.now ≤ length area.old }
    ensures { area.new ≡ filled pass weights.now area.old }
{
    for (i, weight) in weights.iter().enumerate() {
        area[i] = *weight;
    }
}

// Question 16 of the rates; where it passes, the moved rates and then the weights, and elsewhere nothing is written.
fn move_numbers(k: i64, rates: &[f64], weights: &[f64], area: &mut [f64]) -> bool
    requires { Movable k (power k) rates.now × (length rates.now + length weights.now ≤ length area.old) }
    ensures value { result ≡ have_room k rates.now }
    ensures area_after { area.new ≡ filled (ask result 16 0 0) (map (λ number. times_power k number) rates.now ++ weights.now) area.old }
{
    let power = powers::power_of_two(k);
    if has_room(k, power, rates) {
        let count = rates.len();
        times_power(power, rates, area);
        copy(weights, &mut area[count..]);
        return true;
    }
    false
}

// The sheet with its rates times 2^k, in the first places of the area, and its unit.
pub fn move_sheet(sheet: Lent<'_>, k: i64, area: &mut [f64]) -> Result<i64, Refusal>
    ensures { MoveDone sheet.entry.reading sheet.entry.n sheet.entry.e sheet.entry.numbers.now k area.old area.new result }
{
    sheet::move_input(sheet, area.len())?;
    if !((-512 <= k) & (k <= 512)) {
        return Err(Question::Exponent.into());
    }
    let unit = sheet.e + k;
    if !((-512 <= unit) & (unit <= 512)) {
        return Err(Question::MovedUnit.into());
    }
    let sheet = Sheet {
        n: sheet.n,
        numbers: sheet.numbers,
    };
    if !move_numbers(k, sheet.rates(), sheet.weights(), area) {
        return Err(Question::RoomToMove.into());
    }
    Ok(unit)
}
