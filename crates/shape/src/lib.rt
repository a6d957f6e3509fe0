// Questions 1 to 5 of document 01: the reading, the number of stages, the lengths of the lent areas and the
// stages asked for, with 12 of the unit among them, and those of moving, saving, one column and prices (document 02,
// U1, U2, U4, U5, U7 and U10). Their refusals have no row and no column. A sheet that passed them is a value of its own,
// with what they leave known of it.
#![tactic(auto)]

ghost use Rattle.std.specs.Prelude.{◌*◌};
ghost use Rattle.definitions.specs.Sheet.{sheet_numbers};
ghost use Rattle.definitions.specs.Questions.{◌then◌, shape_questions, question4, question5};
ghost use Rattle.definitions.specs.Saving.{save_questions};
ghost use Rattle.definitions.specs.Column.{column_shape};
ghost use Rattle.definitions.specs.Prices.{price_shape};
ghost use Rattle.answers.specs.Outcome.{CallComesTo};

use answers::Question;
use sheets::Shape;

pub mod sheets;

// Questions 1, 2, 12 and 3. The count of numbers is formed only once n is known to be small.
fn ask_shape(reading: usize, n: usize, e: i64, held: usize) -> Result<(), Question>
    ensures { CallComesTo (shape_questions reading n e held) result }
{
    if !((reading == 1) | (reading == 2) | (reading == 3)) {
        return Err(Question::Reading);
    }
    if !((1 <= n) & (n <= 32)) {
        return Err(Question::Stages);
    }
    if !((-512 <= e) & (e <= 512)) {
        return Err(Question::Head);
    }
    if held != counts::numbers(reading, n) {
        return Err(Question::Length);
    }
    Ok(())
}

// Questions 1 to 4, those of the whole table: `room` is the length of the answer area.
pub fn ask_table(sheet: Shape, room: usize) -> Result<(), Question>
    ensures { CallComesTo (shape_questions sheet.reading sheet.n sheet.e sheet.held then question4 (sheet.n * sheet.n) room) result }
{
    ask_shape(sheet.reading, sheet.n, sheet.e, sheet.held)?;
    if room < sheet.n * sheet.n {
        return Err(Question::Room);
    }
    Ok(())
}

// The same for moving, whose second area takes as many numbers as the sheet has.
pub fn ask_move(sheet: Shape, room: usize) -> Result<(), Question>
    ensures { CallComesTo (shape_questions sheet.reading sheet.n sheet.e sheet.held then question4 (sheet_numbers sheet.reading sheet.n) room) result }
{
    let held = sheet.held;
    ask_shape(sheet.reading, sheet.n, sheet.e, held)?;
    if room < held {
        return Err(Question::Room);
    }
    Ok(())
}

// Questions 1 to 4 of saving, whose sheet may stand in words: `held` is its length, and `room` the number of bytes lent.
pub fn ask_save(reading: usize, n: usize, e: i64, held: usize, room: usize) -> Result<(), Question>
    ensures { CallComesTo (save_questions reading n e held room) result }
{
    ask_shape(reading, n, e, held)?;
    if room < counts::file_bytes(reading, n) {
        return Err(Question::Room);
    }
    Ok(())
}

// Questions 1, 2, 3 and 5, those of one entry: row i and column j, counted from 1.
pub fn ask_entry(sheet: Shape, i: usize, j: usize) -> Result<(), Question>
    ensures { CallComesTo (shape_questions sheet.reading sheet.n sheet.e sheet.held then question5 sheet.n i j) result }
{
    ask_shape(sheet.reading, sheet.n, sheet.e, sheet.held)?;
    if !((1 <= i) & (i <= sheet.n) & ((1 <= j) & (j <= sheet.n))) {
        return Err(Question::StageAsked);
    }
    Ok(())
}

// Questions 1 to 5 of one column, of reading 1 alone: `room` is the length of the answer area, which takes n
// numbers, and the stage is counted from 1.
pub fn ask_column(sheet: Shape, room: usize, stage: usize) -> Result<(), Question>
    ensures { CallComesTo (column_shape sheet.reading sheet.n sheet.e sheet.held room stage) result }
{
    if sheet.reading != 1 {
        return Err(Question::Reading);
    }
    ask_shape(1, sheet.n, sheet.e, sheet.held)?;
    if room < sheet.n {
        return Err(Question::Room);
    }
    if !((1 <= stage) & (stage <= sheet.n)) {
        return Err(Question::StageAsked);
    }
    Ok(())
}

// Questions 1 to 4 and 18 of prices: `given` is how many there are, and `room` the length of the answer area, which
// takes n numbers.
pub fn ask_prices(sheet: Shape, given: usize, room: usize) -> Result<(), Question>
    ensures { CallComesTo (price_shape sheet.reading sheet.n sheet.e sheet.held given room) result }
{
    ask_shape(sheet.reading, sheet.n, sheet.e, sheet.held)?;
    if sheet.n > room {
        return Err(Question::Room);
    }
    if given != sheet.n {
        return Err(Question::PriceCount);
    }
    Ok(())
}
