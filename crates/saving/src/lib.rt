// The file of a sheet, written at the start of a lent buffer of bytes (document 02, U1, U5 and U10).
#![tactic(auto)]

ghost use Rattle.std.specs.Prelude.{◌≡◌, ◌++◌, ◌≤◌, T, length, map};
ghost use Rattle.definitions.specs.Sheet.{sheet_numbers};
ghost use Rattle.definitions.specs.File.{file_length};
ghost use Rattle.definitions.specs.Questions.{exponent_in_range};
ghost use Rattle.definitions.specs.Saving.{little_bytes, record_bytes, head_bytes, word_bytes, bytes_due, sheet_file};
ghost use Rattle.buffer.specs.Pasted.{Room, Written, AtStart};

use buffer::Writer;
use records::{put_header, put_number};
use rounding::Word;

#[tactic(auto, using(crate::proofs::FileBytes::lengths), unfolding(definitions::specs::Saving::head_bytes, definitions::specs::Saving::record_bytes))]
fn put_head(reading: usize, n: usize, e: i64, out: &mut Writer<'_>)
    requires { T (exponent_in_range e) × Room (head_bytes reading n e) out.old }
    ensures { Written (head_bytes reading n e) out.old out.new }
{
    let unit = records::complement(e);
    put_header(6, 1, out);
    put_number(reading as u64, 2, out);
    put_number(n as u64, 2, out);
    put_number(unit, 2, out);
}

fn put_words<W: Word>(numbers: &[W], out: &mut Writer<'_>)
    requires { Room (word_bytes (map W.word_of numbers.now)) out.old }
    ensures { Written (word_bytes (map W.word_of numbers.now)) out.old out.new }
{
    for number in numbers {
        put_number(number.to_word(), 8, out);
    }
}

// A record of numbers behind a number of `width` bytes, which is none where that is 0.
#[tactic(auto, using(crate::proofs::FileBytes::lengths), unfolding(definitions::specs::Saving::record_bytes))]
fn put_record<W: Word>(
    kind: usize,
    number: usize,
    width: usize,
    numbers: &[W],
    out: &mut Writer<'_>,
)
    requires { (width ≤ 2) × Room (record_bytes kind (little_bytes width number ++ word_bytes (map W.word_of numbers.now))) out.old }
    ensures { Written (record_bytes kind (little_bytes width number ++ word_bytes (map W.word_of numbers.now))) out.old out.new }
{
    put_header(width + 8 * numbers.len(), kind, out);
    put_number(number as u64, width, out);
    put_words(numbers, out);
}

// The record due: a row with its number, or behind the last row the weights, which have none.
fn put_due<W: Word>(n: usize, due: usize, numbers: &[W], out: &mut Writer<'_>)
    requires { Room (bytes_due n due (map W.word_of numbers.now)) out.old }
    ensures { Written (bytes_due n due (map W.word_of numbers.now)) out.old out.new }
{
    if n < due {
        put_record(3, 0, 0, numbers, out);
        return;
    }
    put_record(2, due, 2, numbers, out);
}

// The whole file of a sheet, each number by its word; returns its length. Rows are cut by place and not as chunks, since
// n may be 0.
pub fn put_sheet<W: Word>(reading: usize, n: usize, e: i64, sheet: &[W], out: &mut [u8]) -> usize
    requires { (length sheet.now ≡ sheet_numbers reading n) × (n ≤ 32) × (file_length reading n ≤ length out.old) × T (exponent_in_range e) }
    ensures { AtStart (sheet_file reading n e (map W.word_of sheet.now)) out.old out.new result }
{
    let rows = counts::rows(reading, n);
    let mut file = Writer { out, at: 0 };
    put_head(reading, n, e, &mut file);
    for i in 0..rows {
        let first = i * n;
        put_due(n, i + 1, &sheet[first..first + n], &mut file);
    }
    file.at
}
