// The table in the answer area, row by row; and one column, from the first row to the last.
#![tactic(auto)]

ghost use Rattle.std.specs.Prelude.{◌≡◌, ◌≤◌, ◌<◌, ◌*◌, ◌++◌, length, drop};
ghost use Rattle.definitions.specs.Tables.{list, rows};
ghost use Rattle.tables.specs.RowMajor.{table};
ghost use Rattle.tables.specs.Vectors.{vector};

use tables::{row, vector};

// Row i of the table in a part of the answer area of its own.
fn write_row(i: usize, x: &[f64; 1024], part: &mut [f64])
    requires { (i < 32) × (length part.old ≤ 32) }
    ensures { part.new ≡ list (table x.now i) (length part.old) }
{
    for (j, place) in part.iter_mut().enumerate() {
        *place = row::get(i, j, x);
    }
}

// All rows; later places keep their numbers. Rows are cut by place and not as chunks, since n may be 0.
pub fn write(n: usize, x: &[f64; 1024], answer: &mut [f64])
    requires { (n ≤ 32) × (n * n ≤ length answer.old) }
    ensures { answer.new ≡ rows (table x.now) n n ++ drop (n * n) answer.old }
{
    for i in 0..n {
        let from = i * n;
        let to = from + n;
        write_row(i, x, &mut answer[from..to]);
    }
}

// A column of n numbers; later places keep theirs.
pub fn write_column(n: usize, b: &[f64; 32], answer: &mut [f64])
    requires { (n ≤ 32) × (n ≤ length answer.old) }
    ensures { answer.new ≡ list (vector b.now) n ++ drop n answer.old }
{
    for (i, place) in answer[..n].iter_mut().enumerate() {
        *place = vector::get(i, b);
    }
}
