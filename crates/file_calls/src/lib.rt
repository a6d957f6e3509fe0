// Reading and saving a sheet file with out places (`out_places`), as programs in C call it, of numbers or of 64-bit words.
#![tactic(auto)]

ghost use Rattle.file.specs.Areas.{file_area, saved_area};
ghost use Rattle.file_calls.specs.FileCalls.{FileCall, SaveCall};

use rounding::Word;

// A sheet file's words at the start of the area, which keep every bit, or its numbers, each from its bits.
pub fn read<W: Word>(
    bytes: &[u8],
    area: &mut [W],
    reading: &mut usize,
    n: &mut usize,
    e: &mut i64,
    row: &mut usize,
    column: &mut usize,
) -> usize
    ensures { FileCall (file_area W.of_word) bytes.now area.old area.new reading.old reading.new n.old n.new e.old e.new row.new column.new result }
{
    let head = file::read(bytes, area);
    out_places::hand_head(head, reading, n, e, row, column)
}

// A sheet of words, with every bit, or of numbers, each by its bits, as a file in the first bytes of the area.
pub fn save<W: Word>(
    reading: usize,
    n: usize,
    e: i64,
    sheet: &[W],
    bytes: &mut [u8],
    length: &mut usize,
    row: &mut usize,
    column: &mut usize,
) -> usize
    ensures { SaveCall (saved_area W.word_of) reading n e sheet.now bytes.old bytes.new length.old length.new row.new column.new result }
{
    let saved = file::save(reading, n, e, sheet, bytes);
    out_places::hand(saved, length, row, column)
}
