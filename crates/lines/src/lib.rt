// The lines of a table, written into a lent buffer (document 01, "The sheet file").
#![tactic(auto)]

ghost use Rattle.std.specs.Prelude.{◌*◌, ◌≤◌, ◌<◌, length};
ghost use Rattle.definitions.specs.Sheet.{place};
ghost use Rattle.definitions.specs.Dwell.{entry_line, row_lines, table_lines};
ghost use Rattle.buffer.specs.Pasted.{Room, Written};

use buffer::Writer;

// Row and column are numbered from 1 here.
#[tactic(auto, unfolding(definitions::specs::Dwell::entry_line, definitions::specs::Dwell::text))]
fn put_entry(row: usize, column: usize, x: f64, out: &mut Writer<'_>)
    requires { Room (entry_line row column x) out.old }
    ensures { Written (entry_line row column x) out.old out.new }
{
    let word = rounding::to_word(x);
    digits::put_field(row, b' ', out);
    digits::put_field(column, b' ', out);
    hexadecimal::put_hexadecimal(word, out);
    out.put_byte(b'\n');
}

// The lines of row i of the n × n numbers in `answer`, i from 0.
fn put_row(i: usize, n: usize, answer: &[f64], out: &mut Writer<'_>)
    requires { (i < n) × (n * n ≤ length answer.now) × Room (row_lines (place n answer.now) i n) out.old }
    ensures { Written (row_lines (place n answer.now) i n) out.old out.new }
{
    let first = i * n;
    for j in 0..n {
        put_entry(i + 1, j + 1, answer[first + j], out);
    }
}

// The lines of all rows.
pub fn put_table(n: usize, answer: &[f64], out: &mut Writer<'_>)
    requires { (n * n ≤ length answer.now) × Room (table_lines (place n answer.now) n n) out.old }
    ensures { Written (table_lines (place n answer.now) n n) out.old out.new }
{
    for i in 0..n {
        put_row(i, n, answer, out);
    }
}
