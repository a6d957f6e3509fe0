// Reading a sheet file into a lent area, of 64-bit words or of f64, and saving a sheet of either as a file in
// lent bytes. All questions are asked before the first place is written.
#![tactic(auto)]

ghost use Rattle.std.specs.Prelude.{◌≡◌, cond, suc, ltb, length};
ghost use Rattle.definitions.specs.File.{longest_file, file_answer};
ghost use Rattle.definitions.specs.Saving.{save_answer};
ghost use Rattle.answers.specs.Answers.{told, head_told};
ghost use Rattle.file.specs.Areas.{file_area, saved_area};

use answers::{Head, Refusal};
use file_questions::judge;
use rounding::Word;

// Reads a sheet file into an area of 64-bit words, which keep every bit, or of numbers, each from its bits.
pub fn read<W: Word>(bytes: &[u8], area: &mut [W]) -> Result<Head, Refusal>
    ensures result_value { head_told result ≡ file_answer bytes.now (length area.old) }
    ensures area_after { area.new ≡ file_area W.of_word bytes.now area.old }
{
    let head = judge(bytes, area.len())?;
    payload::fill(bytes, head.reading, head.n, area);
    Ok(head)
}

// Saves a sheet of 64-bit words, with every bit of the words, or of numbers, each by its bits: its file in the first
// bytes of the area.
pub fn save<W: Word>(
    reading: usize,
    n: usize,
    e: i64,
    sheet: &[W],
    area: &mut [u8],
) -> Result<usize, Refusal>
    ensures result_value { told result ≡ save_answer reading n e (length sheet.now) (length area.old) }
    ensures area_after { area.new ≡ saved_area W.word_of reading n e sheet.now area.old }
{
    shape::ask_save(reading, n, e, sheet.len(), area.len())?;
    Ok(saving::put_sheet(reading, n, e, sheet, area))
}

// One byte more than the longest file: dwell takes no more of its input.
pub const MOST: usize = 8723;

// How many bytes of an input of `held` bytes dwell judges.
pub fn judged(held: usize) -> usize
    ensures { result ≡ cond (ltb held (suc longest_file)) held (suc longest_file) }
{
    held.min(MOST)
}
