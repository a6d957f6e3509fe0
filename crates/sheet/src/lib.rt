// Questions 1 to 9 of document 01, in its order and with 12 of the unit, for the whole table, one column, one
// entry and prices, and those of moving. The public calls have no `requires`: each question is asked only where the ones before it passed.
#![tactic(auto)]

ghost use Rattle.std.specs.Prelude.{cond};
ghost use Rattle.definitions.specs.Questions.{place_questions, number_questions, table_input, entry_input};
ghost use Rattle.definitions.specs.Column.{column_input};
ghost use Rattle.definitions.specs.Moving.{move_input};
ghost use Rattle.definitions.specs.Prices.{price_input};
ghost use Rattle.answers.specs.Outcome.{ComesTo};

use answers::Refusal;
use places::{ask_finite, ask_signs, ask_sizes};
use shape::sheets::{Lent, Whole};

// Questions 6, 7 and 8. The quick pass tells that all numbers are good; where it does not, the searches
// find the first bad place.
fn ask_all_places(whole: Whole<'_>) -> Result<(), Refusal>
    ensures { let sheet = whole.entry.sheet in ComesTo (place_questions whole.entry.reading sheet.n sheet.numbers.now) result }
{
    if quick::sheet_passes(whole) {
        return Ok(());
    }
    ask_finite(whole)?;
    ask_signs(whole)?;
    ask_sizes(whole)
}

// Questions 6 to 9, or 6 to 8 alone for a call that 9 does not concern. A flag and not a function or a constant for each:
// with two, the compiler no longer puts the places' questions into them, and a table of two stages takes 5 % longer.
fn ask_numbers(nine: bool, whole: Whole<'_>) -> Result<(), Refusal>
    ensures { let reading = whole.entry.reading in let n = whole.entry.sheet.n in let sheet = whole.entry.sheet.numbers.now in
        ComesTo (cond nine (number_questions reading n sheet) (place_questions reading n sheet)) result }
{
    ask_all_places(whole)?;
    if !nine {
        return Ok(());
    }
    trapped::ask_trapped(whole.reading, whole.sheet)
}

// The questions of the whole table that come before its steps; `room` is the length of the answer area.
pub fn table_input(sheet: Lent<'_>, room: usize) -> Result<(), Refusal>
    ensures { let sheet = sheet.entry in ComesTo (table_input sheet.reading sheet.n sheet.e sheet.numbers.now room) result }
{
    shape::ask_table(sheet.shape(), room)?;
    ask_numbers(true, Whole::new(sheet.reading, sheet.n, sheet.numbers))
}

// The same for the column of a stage, counted from 1; `room` is the length of its answer area.
pub fn column_input(sheet: Lent<'_>, room: usize, stage: usize) -> Result<(), Refusal>
    ensures { let sheet = sheet.entry in ComesTo (column_input sheet.reading sheet.n sheet.e sheet.numbers.now room stage) result }
{
    shape::ask_column(sheet.shape(), room, stage)?;
    ask_numbers(true, Whole::new(1, sheet.n, sheet.numbers))
}

// The same for the entry at row i and column j, counted from 1.
pub fn entry_input(sheet: Lent<'_>, i: usize, j: usize) -> Result<(), Refusal>
    ensures { let sheet = sheet.entry in ComesTo (entry_input sheet.reading sheet.n sheet.e sheet.numbers.now i j) result }
{
    shape::ask_entry(sheet.shape(), i, j)?;
    ask_numbers(true, Whole::new(sheet.reading, sheet.n, sheet.numbers))
}

// The same for prices, 18 among them; `given` is how many there are, and `room` the length of the answer area.
pub fn price_input(sheet: Lent<'_>, given: usize, room: usize) -> Result<(), Refusal>
    ensures { let sheet = sheet.entry in ComesTo (price_input sheet.reading sheet.n sheet.e sheet.numbers.now given room) result }
{
    shape::ask_prices(sheet.shape(), given, room)?;
    ask_numbers(true, Whole::new(sheet.reading, sheet.n, sheet.numbers))
}

// The questions of moving that come before its own; `area` is the length of the second area.
pub fn move_input(sheet: Lent<'_>, area: usize) -> Result<(), Refusal>
    ensures { let sheet = sheet.entry in ComesTo (move_input sheet.reading sheet.n sheet.e sheet.numbers.now area) result }
{
    shape::ask_move(sheet.shape(), area)?;
    ask_numbers(false, Whole::new(sheet.reading, sheet.n, sheet.numbers))
}
