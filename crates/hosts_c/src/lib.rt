// The static library for programs in C: each call of `hosts` under its name, with its promise. `include/yulanbowls.h`
// declares them. Each call stands here and in `hosts`, since a crate is a library or a static library for C and not both; C
// hands over a sheet's reading, size, unit and numbers one by one and takes a refusal as numbers.
#![tactic(auto)]

ghost use Rattle.definitions.specs.File.{file_number_area, file_word_area};
ghost use Rattle.definitions.specs.Saving.{saved_numbers, saved_words};
ghost use Rattle.file_calls.specs.FileCalls.{FileCall, SaveCall};
ghost use Rattle.move_calls.specs.MoveCalls.{MoveCall};
ghost use Rattle.table_calls.specs.TableCalls.{TableCall, ColumnCall, EntryCall, PricesCall};
ghost use Rattle.hosts.specs.HostCalls.{ReportCall};

// The whole table in the first n × n places of the answer area, and its allowance.
#[unsafe(no_mangle)]
pub extern "C" fn yulanbowls_table(
    reading: usize,
    n: usize,
    e: i64,
    sheet: &[f64],
    answer: &mut [f64],
    allowance: &mut usize,
    row: &mut usize,
    column: &mut usize,
) -> usize
    ensures { TableCall reading n e sheet.now answer.old answer.new allowance.old allowance.new row.new column.new result }
{
    hosts::yulanbowls_table(reading, n, e, sheet, answer, allowance, row, column)
}

// The column of a stage, counted from 1, in the first n places of the answer area, and its allowance.
#[unsafe(no_mangle)]
pub extern "C" fn yulanbowls_column(
    reading: usize,
    n: usize,
    e: i64,
    sheet: &[f64],
    stage: usize,
    answer: &mut [f64],
    allowance: &mut usize,
    row: &mut usize,
    column: &mut usize,
) -> usize
    ensures { ColumnCall reading n e sheet.now stage answer.old answer.new allowance.old allowance.new row.new column.new result }
{
    hosts::yulanbowls_column(reading, n, e, sheet, stage, answer, allowance, row, column)
}

// Entry (i, j), counted from 1: the seconds that a request entering at stage i spends at stage j.
#[unsafe(no_mangle)]
pub extern "C" fn yulanbowls_entry(
    reading: usize,
    n: usize,
    e: i64,
    sheet: &[f64],
    i: usize,
    j: usize,
    seconds: &mut f64,
    row: &mut usize,
    column: &mut usize,
) -> usize
    ensures { EntryCall reading n e sheet.now i j seconds.old seconds.new row.new column.new result }
{
    hosts::yulanbowls_entry(reading, n, e, sheet, i, j, seconds, row, column)
}

// The price of a request that enters at each stage, in the first n places of the answer area, and its allowance.
#[unsafe(no_mangle)]
pub extern "C" fn yulanbowls_prices(
    reading: usize,
    n: usize,
    e: i64,
    sheet: &[f64],
    prices: &[f64],
    answer: &mut [f64],
    allowance: &mut usize,
    row: &mut usize,
    column: &mut usize,
) -> usize
    ensures { PricesCall reading n e sheet.now prices.now prices.now answer.old answer.new allowance.old allowance.new row.new column.new result }
{
    hosts::yulanbowls_prices(reading, n, e, sheet, prices, answer, allowance, row, column)
}

// A sheet file's numbers in the first places of the area, each from its bits.
#[unsafe(no_mangle)]
pub extern "C" fn yulanbowls_read_numbers(
    bytes: &[u8],
    area: &mut [f64],
    reading: &mut usize,
    n: &mut usize,
    e: &mut i64,
    row: &mut usize,
    column: &mut usize,
) -> usize
    ensures { FileCall file_number_area bytes.now area.old area.new reading.old reading.new n.old n.new e.old e.new row.new column.new result }
{
    hosts::yulanbowls_read_numbers(bytes, area, reading, n, e, row, column)
}

// A sheet file's 64-bit words in the first places of the area; every bit is kept.
#[unsafe(no_mangle)]
pub extern "C" fn yulanbowls_read_words(
    bytes: &[u8],
    area: &mut [u64],
    reading: &mut usize,
    n: &mut usize,
    e: &mut i64,
    row: &mut usize,
    column: &mut usize,
) -> usize
    ensures { FileCall file_word_area bytes.now area.old area.new reading.old reading.new n.old n.new e.old e.new row.new column.new result }
{
    hosts::yulanbowls_read_words(bytes, area, reading, n, e, row, column)
}

// A sheet of numbers as a file in the first bytes of the area, each number by its bits.
#[unsafe(no_mangle)]
pub extern "C" fn yulanbowls_save_numbers(
    reading: usize,
    n: usize,
    e: i64,
    sheet: &[f64],
    bytes: &mut [u8],
    length: &mut usize,
    row: &mut usize,
    column: &mut usize,
) -> usize
    ensures { SaveCall saved_numbers reading n e sheet.now bytes.old bytes.new length.old length.new row.new column.new result }
{
    hosts::yulanbowls_save_numbers(reading, n, e, sheet, bytes, length, row, column)
}

// A sheet of 64-bit words as a file in the first bytes of the area; every bit is kept.
#[unsafe(no_mangle)]
pub extern "C" fn yulanbowls_save_words(
    reading: usize,
    n: usize,
    e: i64,
    sheet: &[u64],
    bytes: &mut [u8],
    length: &mut usize,
    row: &mut usize,
    column: &mut usize,
) -> usize
    ensures { SaveCall saved_words reading n e sheet.now bytes.old bytes.new length.old length.new row.new column.new result }
{
    hosts::yulanbowls_save_words(reading, n, e, sheet, bytes, length, row, column)
}

// The sheet with its rates times 2^k, in the first places of the area, and its unit.
#[unsafe(no_mangle)]
pub extern "C" fn yulanbowls_move(
    reading: usize,
    n: usize,
    e: i64,
    sheet: &[f64],
    k: i64,
    area: &mut [f64],
    unit: &mut i64,
    row: &mut usize,
    column: &mut usize,
) -> usize
    ensures { MoveCall reading n e sheet.now k area.old area.new unit.old unit.new row.new column.new result }
{
    hosts::yulanbowls_move(reading, n, e, sheet, k, area, unit, row, column)
}

// The text that dwell prints for a sheet file, at the start of the area; returns its length. An area
// of less than 32,768 bytes is left alone.
#[unsafe(no_mangle)]
pub extern "C" fn yulanbowls_report(bytes: &[u8], text: &mut [u8]) -> usize
    ensures { ReportCall bytes.now text.old text.new result }
{
    hosts::yulanbowls_report(bytes, text)
}
