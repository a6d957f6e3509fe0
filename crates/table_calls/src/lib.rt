// The whole table, one column, one entry and prices with out places (`out_places`), as programs in C call them.
#![tactic(auto)]

ghost use Rattle.table_calls.specs.TableCalls.{TableCall, ColumnCall, EntryCall, PricesCall};

use shape::sheets::Lent;

// The whole table in the first n × n places of the answer area, and its allowance.
pub fn table(
    reading: usize,
    n: usize,
    e: i64,
    sheet: &[f64],
    answer: &mut [f64],
    allowance: &mut usize,
    row: &mut usize,
    column: &mut usize,
) -> usize
    ensures { TableCall reading n e sheet.now answer.old answer.new allowance.old allowance.new row.new column.new result }
{
    let lent = Lent {
        reading,
        n,
        e,
        numbers: sheet,
    };
    let table = planner::whole_table(lent, answer);
    out_places::hand(table, allowance, row, column)
}

// The column of a stage, counted from 1, in the first n places of the answer area, and its allowance.
pub fn column(
    reading: usize,
    n: usize,
    e: i64,
    sheet: &[f64],
    stage: usize,
    answer: &mut [f64],
    allowance: &mut usize,
    row: &mut usize,
    column: &mut usize,
) -> usize
    ensures { ColumnCall reading n e sheet.now stage answer.old answer.new allowance.old allowance.new row.new column.new result }
{
    let lent = Lent {
        reading,
        n,
        e,
        numbers: sheet,
    };
    let told = column_planner::one_column(lent, stage, answer);
    out_places::hand(told, allowance, row, column)
}

// Entry (i, j), counted from 1: the seconds that a request entering at stage i spends at stage j.
pub fn entry(
    reading: usize,
    n: usize,
    e: i64,
    sheet: &[f64],
    i: usize,
    j: usize,
    seconds: &mut f64,
    row: &mut usize,
    column: &mut usize,
) -> usize
    ensures { EntryCall reading n e sheet.now i j seconds.old seconds.new row.new column.new result }
{
    let lent = Lent {
        reading,
        n,
        e,
        numbers: sheet,
    };
    let entry = planner::one_entry(lent, i, j);
    out_places::hand(entry, seconds, row, column)
}

// The price of a request that enters at each stage, in the first n places of the answer area, and its allowance.
pub fn prices(
    reading: usize,
    n: usize,
    e: i64,
    sheet: &[f64],
    prices: &[f64],
    answer: &mut [f64],
    allowance: &mut usize,
    row: &mut usize,
    column: &mut usize,
) -> usize
    ensures { PricesCall reading n e sheet.now prices.now prices.now answer.old answer.new allowance.old allowance.new row.new column.new result }
{
    let lent = Lent {
        reading,
        n,
        e,
        numbers: sheet,
    };
    let told = price_planner::request_prices(lent, prices, answer);
    out_places::hand(told, allowance, row, column)
}
