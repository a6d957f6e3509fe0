// The new sizes and leaving rates of the rows of two stages (the Schur complement), on the table t of sizes and leaving
// rates.
#![tactic(auto)]

ghost use Rattle.std.specs.Prelude.{suc, ◌≤◌, ◌<◌};
ghost use Rattle.tables.specs.RowMajor.{table, Holds};
ghost use Rattle.tables.specs.Operators.{replace, span};
ghost use Rattle.passes.specs.Stages.{eliminated_row, next_begun, plus_two, pair_row, pair_rows};

use pivots::Stage;
use tables::row;

// Row i at stage k, whose multiplier stands in column k. The loop over the row runs over the diagonal
// too, so the new s_i is made before and stored after it.
fn eliminate_row(r: usize, k: usize, i: usize, stage: Stage, t: &mut [f64; 1024])
    requires { (k < i) × (i < r) × (r ≤ 32) }
    ensures { let f = table t.old in Holds t.new (replace i (eliminated_row r k stage.s f i) f) }
{
    let m = row::get(i, k, t);
    let s = row::get(i, i, t) + m * stage.s;
    rows::add_multiple(i, k, m, k + 1, r, t);
    row::put(i, i, s, t);
}

// What stage k + 1 needs of stage k to begin: its own row, and its column in the later rows.
pub fn begin_next(r: usize, k: usize, stage: Stage, t: &mut [f64; 1024])
    requires { (suc k < r) × (r ≤ 32) }
    ensures { Holds t.new (next_begun r k stage.s (table t.old)) }
{
    eliminate_row(r, k, k + 1, stage, t);
    let y = row::get(k, k + 1, t);
    for i in k + 2..r {
        let x = row::get(i, k + 1, t);
        let m = row::get(i, k, t);
        row::put(i, k + 1, x + m * y, t);
    }
}

// Adds a times row k and then b times row k + 1 to row i, in the columns from lo up to hi. Each number is
// loaded and stored once for both.
fn add_two(i: usize, k: usize, a: f64, b: f64, lo: usize, hi: usize, t: &mut [f64; 1024])
    requires { (suc k < i) × (i < 32) × (lo ≤ hi) × (hi ≤ 32) }
    ensures { let f = table t.old in Holds t.new (span i lo hi (plus_two a b (f i) (f k) (f (suc k))) f) }
{
    for j in lo..hi {
        let x = row::get(i, j, t);
        let y = row::get(k, j, t);
        let z = row::get(k + 1, j, t);
        row::put(i, j, x + a * y + b * z, t);
    }
}

// Row i at stages k and k + 1, whose multipliers stand in their columns; its new s_i as in `eliminate_row`.
fn eliminate_twice(r: usize, k: usize, i: usize, first: Stage, second: Stage, t: &mut [f64; 1024])
    requires { (suc k < i) × (i < r) × (r ≤ 32) }
    ensures { let f = table t.old in Holds t.new (replace i (pair_row r k first.s second.s f i) f) }
{
    let a = row::get(i, k, t);
    let b = row::get(i, k + 1, t);
    let sum = row::get(i, i, t) + a * first.s + b * second.s;
    add_two(i, k, a, b, k + 2, r, t);
    row::put(i, i, sum, t);
}

// The rows after k + 1 at both stages.
pub fn eliminate_pair(r: usize, k: usize, first: Stage, second: Stage, t: &mut [f64; 1024])
    requires { (suc k < r) × (r ≤ 32) }
    ensures { Holds t.new (pair_rows r k first.s second.s (table t.old)) }
{
    for i in k + 2..r {
        eliminate_twice(r, k, i, first, second, t);
    }
}
