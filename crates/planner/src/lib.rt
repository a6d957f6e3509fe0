// The public services: the whole table with its allowance, and one entry. Neither has a `requires`:
// the questions of document 01 are asked in its order, and a no ends the call with no place changed.
#![tactic(auto)]

ghost use Rattle.std.specs.Prelude.{◌≡◌, length};
ghost use Rattle.definitions.specs.Questions.{pass, table_input, entry_input};
ghost use Rattle.planner.specs.Promises.{TableDone, EntryDone};

use answers::{Question, Refusal};
use shape::sheets::{Lent, Whole};
use tables::row;

// The whole table of a sheet that passed questions 1 to 9. Nothing is written before question 10 passes too.
fn table_of_sheet(sheet: Lent<'_>, answer: &mut [f64]) -> Result<usize, Refusal>
    requires { table_input sheet.reading sheet.n sheet.e sheet.numbers.now (length answer.old) ≡ pass }
    ensures { TableDone sheet.entry.reading sheet.entry.n sheet.entry.e sheet.entry.numbers.now answer.old answer.new result }
{
    let mut x = [0.0; 1024];
    let whole = Whole::new(sheet.reading, sheet.n, sheet.numbers);
    let told = readings::steps(whole, &mut x);
    if !told {
        return Err(Question::InRange.into());
    }
    writing::write(sheet.n, &x, answer);
    Ok(allowance::allowance_of(sheet.reading, sheet.n))
}

// The whole table, row by row in the first n × n places of the answer area.
pub fn whole_table(sheet: Lent<'_>, answer: &mut [f64]) -> Result<usize, Refusal>
    ensures { TableDone sheet.entry.reading sheet.entry.n sheet.entry.e sheet.entry.numbers.now answer.old answer.new result }
{
    sheet::table_input(sheet, answer.len())?;
    table_of_sheet(sheet, answer)
}

// Entry (i, j), counted from 1, of a sheet that passed questions 1 to 9.
fn entry_of_sheet(sheet: Lent<'_>, i: usize, j: usize) -> Result<f64, Refusal>
    requires { entry_input sheet.reading sheet.n sheet.e sheet.numbers.now i j ≡ pass }
    ensures { EntryDone sheet.entry.reading sheet.entry.n sheet.entry.e sheet.entry.numbers.now i j result }
{
    let mut table = [0.0; 1024];
    let whole = Whole::new(sheet.reading, sheet.n, sheet.numbers);
    if !readings::steps(whole, &mut table) {
        return Err(Question::InRange.into());
    }
    Ok(row::get(i - 1, j - 1, &table))
}

// One entry: the seconds that a request entering at stage i spends at stage j, counted from 1.
pub fn one_entry(sheet: Lent<'_>, i: usize, j: usize) -> Result<f64, Refusal>
    ensures { EntryDone sheet.entry.reading sheet.entry.n sheet.entry.e sheet.entry.numbers.now i j result }
{
    sheet::entry_input(sheet, i, j)?;
    entry_of_sheet(sheet, i, j)
}
