// Powers of two as numbers (document 02, U4 and U6), from a constant table whose doubling rule is tested once.
#![tactic(auto)]

ghost use Rattle.std.specs.Prelude.{◌≡◌, T, pos, ◌+ℤ◌};
ghost use Rattle.definitions.specs.Questions.{exponent_in_range};
ghost use Rattle.rounding.specs.Scaling.{power};
ghost use Rattle.powers.specs.Doubling.{doubling_rule};

mod table;

use table::POWERS;

// k + 512, for k from -512 to 512.
#[tactic(auto, unfolding(definitions::specs::Questions::exponent_in_range))]
fn place_of(k: i64) -> usize
    requires { T (exponent_in_range k) }
    ensures { pos result ≡ k +ℤ pos 512 }
{
    (k + 512) as usize
}

// 2^k from a table that keeps the doubling rule.
fn power_in(table: &[f64], k: i64) -> f64
    requires { T (doubling_rule table.now) × T (exponent_in_range k) }
    ensures { result ≡ power k }
{
    let at = place_of(k);
    table[at]
}

// 2^k, for k from -512 to 512.
pub fn power_of_two(k: i64) -> f64
    requires { T (exponent_in_range k) }
    ensures { result ≡ power k }
{
    power_in(&POWERS, k)
}
