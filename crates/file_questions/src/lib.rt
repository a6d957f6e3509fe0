// The questions of a sheet file (document 01; document 02, U5 and U10): 11 to 14 record by record, then 4.
#![tactic(auto)]

ghost use Rattle.std.specs.Prelude.{true, ◌≡◌, ◌+◌, ◌≤◌, length, drop};
ghost use Rattle.definitions.specs.File.{record_length, head_unit, known_head, good_head, good_record, file_answer};
ghost use Rattle.definitions.specs.Services as services;
ghost use Rattle.answers.specs.Answers.{number, head_told};

use answers::{Head, Question, Refusal};
use records::{field_at, is_whole, record_end, signed_at};

// The unit that a head says, of either length; an old head says none, and its unit is the second.
fn unit_of(bytes: &[u8]) -> i64
    requires { (6 + record_length bytes.now ≤ length bytes.now) × (known_head bytes.now ≡ true) }
    ensures { result ≡ head_unit bytes.now }
{
    if field_at(bytes, 0, 4) == 4 {
        return 0;
    }
    signed_at(bytes, 10)
}

// Question 12, of a head that the file holds whole.
fn is_good_head(bytes: &[u8]) -> bool
    requires { 6 + record_length bytes.now ≤ length bytes.now }
    ensures { result ≡ good_head bytes.now }
{
    if field_at(bytes, 4, 2) != 1 {
        return false;
    }
    let size = field_at(bytes, 0, 4);
    if !((size == 4) | (size == 6)) {
        return false;
    }
    let reading = field_at(bytes, 6, 2);
    let n = field_at(bytes, 8, 2);
    let e = unit_of(bytes);
    ((reading == 1) | (reading == 2) | (reading == 3))
        & (1 <= n)
        & (n <= 32)
        & ((-512 <= e) & (e <= 512))
}

// Question 13, of the record due, which starts at `at` and which the file holds whole: a row, or behind the last row
// the weights, which have no number.
fn is_good_record(bytes: &[u8], at: usize, n: usize, due: usize) -> bool
    requires { (at + (6 + record_length (drop at bytes.now)) ≤ length bytes.now) × (n ≤ 32) }
    ensures { result ≡ good_record n due (drop at bytes.now) }
{
    let size = field_at(bytes, at, 4);
    let kind = field_at(bytes, at + 4, 2);
    if n < due {
        return (kind == 3) & (size == 8 * n);
    }
    if !((kind == 2) & (size == 2 + 8 * n)) {
        return false;
    }
    let number = field_at(bytes, at + 6, 2);
    number == due
}

// A refusal with a row; the questions about files never have a column.
fn refused(question: Question, row: usize) -> Result<Head, Refusal>
    ensures { head_told result ≡ services.refused (number question) row 0 }
{
    Err(Refusal {
        question,
        row,
        column: 0,
    })
}

// The answer for a file and the length of the lent area: questions 11 to 14, then 4. Questions 1
// and 2 need no test of their own, for 12 has asked both.
pub fn judge(bytes: &[u8], room: usize) -> Result<Head, Refusal>
    ensures { head_told result ≡ file_answer bytes.now room }
{
    if !is_whole(bytes, 0) {
        return refused(Question::WholeRecord, 0);
    }
    if !is_good_head(bytes) {
        return refused(Question::Head, 0);
    }
    let reading = field_at(bytes, 6, 2);
    let n = field_at(bytes, 8, 2);
    let e = unit_of(bytes);
    let rows = counts::rows(reading, n);
    let mut at = record_end(bytes, 0);
    for row in 0..rows {
        let due = row + 1;
        if !is_whole(bytes, at) {
            return refused(Question::WholeRecord, due);
        }
        if !is_good_record(bytes, at, n, due) {
            return refused(Question::RecordDue, due);
        }
        at = record_end(bytes, at);
    }
    let places = counts::numbers(reading, n);
    if at != bytes.len() {
        return refused(Question::FileEnds, 0);
    }
    if room < places {
        return refused(Question::Room, 0);
    }
    Ok(Head { reading, n, e })
}
