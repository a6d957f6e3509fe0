// The steps for leaving rates with one column of b (document 02, U2): the numbers of that column of the table,
// and whether the steps that serve every column and those of this one are in range. Nothing is asked of the
// numbers, and no other column is made.
//
// The stages come one after another, as document 01 has them. A product is tested where it is made; that every
// result is finite shows in the answers, since a finite sum has finite parts.
#![tactic(auto)]

ghost use Rattle.std.specs.Prelude.{◌≡◌, ◌≤◌, ◌<◌};
ghost use Rattle.tables.specs.RowMajor.{table};
ghost use Rattle.tables.specs.Vectors.{vector, ZeroVector};
ghost use Rattle.column.specs.ColumnSteps.{large_product, StageGives, UnitColumn, DownwardGives, UpwardGives, QuotientsGive, ColumnSolved};

use tables::{row, vector};

// Whether the product of m and y is above 2^-1022 unless one of them is zero.
fn large_product(m: f64, y: f64) -> bool
    ensures { result ≡ large_product m y }
{
    (m == 0.0) | (y == 0.0) | (2.2250738585072014e-308 < m * y)
}

// Stage k on the rows from `from` up to `to`: b_i becomes b_i + m·b_k, with m at place (i, k) of t.
fn add_multiples(k: usize, from: usize, to: usize, t: &[f64; 1024], b: &mut [f64; 32]) -> bool
    requires { (k < 32) × (from ≤ to) × (to ≤ 32) }
    ensures { StageGives k from to (table t.now) (vector b.old) result b.new }
{
    let y = vector::get(k, b);
    let mut ok = true;
    for i in from..to {
        let m = row::get(i, k, t);
        let x = vector::get(i, b);
        let large = large_product(m, y);
        ok = ok & large;
        vector::put(i, x + m * y, b);
    }
    ok
}

// Column j of the identity, in a vector of zeros. Past the last stage, at j = r, it has no 1 (document 02, U3).
fn identity(r: usize, j: usize, b: &mut [f64; 32])
    requires { (j ≤ r) × (r ≤ 32) × ZeroVector b.old }
    ensures { UnitColumn r j b.new }
{
    if j < r {
        vector::put(j, 1.0, b);
    }
}

// The downward stages of column j, which begin with stage j: before it the column has nothing to add.
fn downward_steps(r: usize, j: usize, t: &[f64; 1024], b: &mut [f64; 32]) -> bool
    requires { (j ≤ r) × (r ≤ 32) }
    ensures { DownwardGives r j (table t.now) (vector b.old) result b.new }
{
    let mut ok = true;
    for k in j..r {
        let large = add_multiples(k, k + 1, r, t, b);
        ok = ok & large;
    }
    ok
}

// The upward stages, from the last row to the first.
fn upward_steps(r: usize, t: &[f64; 1024], b: &mut [f64; 32]) -> bool
    requires { r ≤ 32 }
    ensures { UpwardGives r (table t.now) (vector b.old) result b.new }
{
    let mut ok = true;
    for q in 0..r {
        let k = r - 1 - q;
        let large = add_multiples(k, 0, k, t, b);
        ok = ok & large;
    }
    ok
}

// The last division, by the pivots.
fn quotients(r: usize, t: &[f64; 1024], b: &mut [f64; 32]) -> bool
    requires { r ≤ 32 }
    ensures { QuotientsGive r (table t.now) (vector b.old) result b.new }
{
    let mut ok = true;
    for i in 0..r {
        let x = vector::get(i, b);
        let p = row::get(i, i, t);
        let q = x / p;
        let step = rounding::result_in_range(x, p, q);
        ok = ok & step;
        vector::put(i, q, b);
    }
    ok
}

// Column j of the quotients, in b, of the system in t; true if its steps are in range. b holds zeros before;
// afterwards it is left open where a step is not in range, and so is t. At j = r the steps are taken with a
// column of zeros (document 02, U3); a number and no Option, since the definitions of the column count so too.
pub fn solve(r: usize, j: usize, t: &mut [f64; 1024], b: &mut [f64; 32]) -> bool
    requires { (j ≤ r) × (r ≤ 32) × ZeroVector b.old }
    ensures { ColumnSolved r j (table t.old) result b.new }
{
    let none = [0.0; 0];
    if !downward::shared(r, &none, t) {
        return false;
    }
    identity(r, j, b);
    let down = downward_steps(r, j, t, b);
    let up = upward_steps(r, t, b);
    let last = quotients(r, t, b);
    down & up & last
}
