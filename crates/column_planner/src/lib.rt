// The service for one column (document 02, U2): the seconds at one stage, from every entry, for sheets of reading
// 1. It has no `requires`: its questions are asked in order, and a no ends the call with no place changed.
#![tactic(auto)]

ghost use Rattle.std.specs.Prelude.{◌<◌, ◌≡◌, true, length};
ghost use Rattle.definitions.specs.Numbers.{all};
ghost use Rattle.definitions.specs.Sheet.{takes_part};
ghost use Rattle.definitions.specs.Questions.{pass};
ghost use Rattle.definitions.specs.Column.{column_input};
ghost use Rattle.tables.specs.Vectors.{ZeroVector};
ghost use Rattle.column_planner.specs.Promises.{ColumnStepped, ColumnDone};

use answers::{Question, Refusal};
use shape::sheets::{Lent, Sheet, Whole};

// Column j of a sheet without idle stages: its sizes and leaving rates go through the steps as they are.
fn leaving_rates(j: usize, sheet: Sheet<'_>, b: &mut [f64; 32]) -> bool
    requires { (all (takes_part 1 sheet.n sheet.numbers.now) 0 sheet.n ≡ true) × (j < sheet.n) × ZeroVector b.old }
    ensures { ColumnStepped sheet.entry.n sheet.entry.numbers.now j result b.new }
{
    let mut t = [0.0; 1024];
    loading::sizes(sheet, &mut t);
    loading::rates(sheet, &mut t);
    column::solve(sheet.n, j, &mut t, b)
}

// Column j of a sheet with idle stages: the others go through the steps in compact order, with a column of zeros
// where stage j is idle. The zeros of x stay in the idle rows, or in every row.
fn live_stages(j: usize, sheet: Sheet<'_>, x: &mut [f64; 32]) -> bool
    requires { (j < sheet.n) × ZeroVector x.old }
    ensures { ColumnStepped sheet.entry.n sheet.entry.numbers.now j result x.new }
{
    let mut s = [0.0; 1024];
    let mut b = [0.0; 32];
    let stages = live::pack(sheet, &mut s);
    let place = stages.find(j);
    if !column::solve(stages.count, place.unwrap_or(stages.count), &mut s, &mut b) {
        return false;
    }
    if place.is_none() {
        return true;
    }
    stages.unpack_vector(&b, x);
    true
}

// Column j of a sheet's table, in b; true if its steps are in range. b holds zeros before; afterwards it is left
// open where a step is not in range.
fn steps(j: usize, sheet: Sheet<'_>, b: &mut [f64; 32]) -> bool
    requires { (j < sheet.n) × ZeroVector b.old }
    ensures { ColumnStepped sheet.entry.n sheet.entry.numbers.now j result b.new }
{
    if idle::some_idle(sheet) {
        return live_stages(j, sheet, b);
    }
    leaving_rates(j, sheet, b)
}

// The column of a sheet that passed questions 1 to 9. Nothing is written before question 10 passes too.
fn column_of_sheet(sheet: Lent<'_>, stage: usize, answer: &mut [f64]) -> Result<usize, Refusal>
    requires { column_input sheet.reading sheet.n sheet.e sheet.numbers.now (length answer.old) stage ≡ pass }
    ensures { ColumnDone sheet.entry.reading sheet.entry.n sheet.entry.e sheet.entry.numbers.now stage answer.old answer.new result }
{
    let whole = Whole::new(1, sheet.n, sheet.numbers);
    let mut b = [0.0; 32];
    if !steps(stage - 1, whole.sheet, &mut b) {
        return Err(Question::InRange.into());
    }
    writing::write_column(sheet.n, &b, answer);
    Ok(allowance::allowance_of(1, sheet.n))
}

// The column of a stage, counted from 1, in the first n places of the answer area.
pub fn one_column(sheet: Lent<'_>, stage: usize, answer: &mut [f64]) -> Result<usize, Refusal>
    ensures { ColumnDone sheet.entry.reading sheet.entry.n sheet.entry.e sheet.entry.numbers.now stage answer.old answer.new result }
{
    sheet::column_input(sheet, answer.len(), stage)?;
    column_of_sheet(sheet, stage, answer)
}
