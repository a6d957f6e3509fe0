// The text that dwell prints, at the start of a lent buffer of bytes; later bytes stay as they were
// (document 01, "The sheet file").
#![tactic(auto)]

ghost use Rattle.std.specs.Prelude.{◌++◌, ◌*◌, ◌≤◌, length};
ghost use Rattle.definitions.specs.Sheet.{place};
ghost use Rattle.definitions.specs.Dwell.{seconds_line, table_lines};
ghost use Rattle.answers.specs.Answers.{told};
ghost use Rattle.buffer.specs.Pasted.{Room, Written, AtStart};
ghost use Rattle.text.specs.AnswerText.{answer_text};

use answers::Refusal;
use buffer::Writer;

// The first line of an accepted sheet: n, the allowance and e.
fn put_seconds(n: usize, allowance: usize, e: i64, out: &mut Writer<'_>)
    requires { Room (seconds_line n allowance e) out.old }
    ensures { Written (seconds_line n allowance e) out.old out.new }
{
    out.put_bytes(b"seconds ");
    digits::put_field(n, b' ', out);
    digits::put_field(allowance, b' ', out);
    digits::put_integer(e, b'\n', out);
}

// The lines of an accepted sheet, at the start of `out`; later bytes stay as they were. `answer`
// holds the table row by row, and may be longer. Returns the length of the lines.
fn seconds_text(n: usize, allowance: usize, e: i64, answer: &[f64], out: &mut [u8]) -> usize
    requires { (n ≤ 32) × (n * n ≤ length answer.now) × (32768 ≤ length out.old) }
    ensures { AtStart (seconds_line n allowance e ++ table_lines (place n answer.now) n n) out.old out.new result }
{
    let mut text = Writer { out, at: 0 };
    put_seconds(n, allowance, e, &mut text);
    lines::put_table(n, answer, &mut text);
    text.at
}

// The text for what the whole table's service answers; where it is accepted, `answer` holds the table.
pub fn answer_text(
    table: Result<usize, Refusal>,
    n: usize,
    e: i64,
    answer: &[f64],
    out: &mut [u8],
) -> usize
    requires { (n ≤ 32) × (n * n ≤ length answer.now) × (32768 ≤ length out.old) }
    ensures { AtStart (answer_text n e answer.now (told table)) out.old out.new result }
{
    match table {
        Ok(allowance) => seconds_text(n, allowance, e, answer, out),
        Err(refusal) => {
            refusal::refused_text(refusal.question.into(), refusal.row, refusal.column, out)
        }
    }
}
