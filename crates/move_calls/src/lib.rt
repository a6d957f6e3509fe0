// Moving a sheet to another time unit with out places (`out_places`), as programs in C call it.
#![tactic(auto)]

ghost use Rattle.move_calls.specs.MoveCalls.{MoveCall};

use shape::sheets::Lent;

// The sheet with its rates times 2^k, in the first places of the area, and its unit.
pub fn move_sheet(
    reading: usize,
    n: usize,
    e: i64,
    sheet: &[f64],
    k: i64,
    area: &mut [f64],
    unit: &mut i64,
    row: &mut usize,
    column: &mut usize,
) -> usize
    ensures { MoveCall reading n e sheet.now k area.old area.new unit.old unit.new row.new column.new result }
{
    let lent = Lent {
        reading,
        n,
        e,
        numbers: sheet,
    };
    let moved = moving::move_sheet(lent, k, area);
    out_places::hand(moved, unit, row, column)
}
