// Idle stages (document 02, U3): in reading 1 a stage whose row and column are all zero is left out of the
// steps. A zero of either sign counts, and the diagonal's too.
#![tactic(auto)]

ghost use Rattle.std.specs.Prelude.{◌≡◌, not, ◌<◌};
ghost use Rattle.definitions.specs.Numbers.{all};
ghost use Rattle.definitions.specs.Sheet.{idle, takes_part};

use shape::sheets::Sheet;

// Whether stage i is idle. A stage in use mostly shows it early, so the search ends at its first number.
pub fn is_idle(i: usize, sheet: Sheet<'_>) -> bool
    requires { i < sheet.n }
    ensures { result ≡ idle sheet.entry.n sheet.entry.numbers.now i }
{
    for j in 0..sheet.n {
        if (sheet.number_at(i, j) != 0.0) | (sheet.number_at(j, i) != 0.0) {
            return false;
        }
    }
    true
}

// Whether some stage is idle. The diagonal is asked first: a stage with a leaving rate is told there, by one
// number, so a sheet without idle stages costs next to nothing.
pub fn some_idle(sheet: Sheet<'_>) -> bool
    ensures { result ≡ not (all (takes_part 1 sheet.entry.n sheet.entry.numbers.now) 0 sheet.entry.n) }
{
    for i in 0..sheet.n {
        if (sheet.number_at(i, i) == 0.0) && is_idle(i, sheet) {
            return true;
        }
    }
    false
}
