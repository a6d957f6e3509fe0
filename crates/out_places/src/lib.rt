// What a service answers, in the out places of a caller in C, who has no enums: the number of the refusal is
// returned, or 0, and `row` and `column` tell the rest of it, 0 and 0 where there is none. What the call hands
// over goes to the other places, which a refused call leaves as they were.
#![tactic(auto)]

ghost use Rattle.std.specs.Prelude.{◌≡◌};
ghost use Rattle.answers.specs.Answers.{number, told, head_told};
ghost use Rattle.out_places.specs.OutPlaces.{ValueHanded, HeadHanded};

use answers::{Head, Refusal};

// A refusal in the places for its row and column, by its number, whichever number a caller gives it.
pub fn hand_refusal(
    number: usize,
    at_row: usize,
    at_column: usize,
    row: &mut usize,
    column: &mut usize,
) -> usize
    ensures { (row.new ≡ at_row) × (column.new ≡ at_column) × (result ≡ number) }
{
    *row = at_row;
    *column = at_column;
    number
}

fn tell(refusal: Refusal, row: &mut usize, column: &mut usize) -> usize
    ensures { (row.new ≡ refusal.row) × (column.new ≡ refusal.column) × (result ≡ number refusal.question) }
{
    hand_refusal(
        refusal.question.into(),
        refusal.row,
        refusal.column,
        row,
        column,
    )
}

// An allowance, a number of seconds, a length or a unit.
pub fn hand<T: Copy>(
    answer: Result<T, Refusal>,
    value: &mut T,
    row: &mut usize,
    column: &mut usize,
) -> usize
    ensures { ValueHanded (told answer) value.old value.new row.new column.new result }
{
    match answer {
        Ok(given) => {
            *value = given;
            *row = 0;
            *column = 0;
            0
        }
        Err(refusal) => tell(refusal, row, column),
    }
}

// What a sheet file says of its sheet.
pub fn hand_head(
    answer: Result<Head, Refusal>,
    reading: &mut usize,
    n: &mut usize,
    e: &mut i64,
    row: &mut usize,
    column: &mut usize,
) -> usize
    ensures { HeadHanded (head_told answer) reading.old reading.new n.old n.new e.old e.new row.new column.new result }
{
    match answer {
        Ok(head) => {
            *reading = head.reading;
            *n = head.n;
            *e = head.e;
            *row = 0;
            *column = 0;
            0
        }
        Err(refused) => tell(refused, row, column),
    }
}
