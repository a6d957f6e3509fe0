// The stages that are not kept join the known ones, from the highest down (document 01, "Steps for margins").
#![tactic(auto)]

ghost use Rattle.std.specs.Prelude.{◌≡◌, ◌≤◌, ◌<◌};
ghost use Rattle.tables.specs.RowMajor.{table};
ghost use Rattle.tables.specs.Vectors.{vector};
ghost use Rattle.compact.specs.Listing.{marked};
ghost use Rattle.joins.specs.StageJoin.{knows, Factors, KnownSum, PlaceFilled, ColumnFilled, JoinDone};
ghost use Rattle.joins.specs.Joins.{StageJoins, StagesJoin};

use rows::Sum;
use tables::{row, vector};

// The stages that are known as stage c joins: the kept ones and those above c.
fn is_known(c: usize, i: usize, kept: &[bool; 32]) -> bool
    requires { i < 32 }
    ensures { result ≡ knows c (marked kept.now) i }
{
    let own = kept[i];
    let above = c < i;
    own | above
}

// The factors t_lc / p of column c, p being a_c; true if those of the known stages are in range.
fn factors(
    n: usize,
    c: usize,
    p: f64,
    t: &[f64; 1024],
    kept: &[bool; 32],
    w: &mut [f64; 32],
) -> bool
    requires { (n ≤ 32) × (c < 32) }
    ensures { Factors n (knows c (marked kept.now)) (λ l. table t.now l c) p (vector w.old) result w.new }
{
    let mut ok = true;
    for l in 0..n {
        let known = is_known(c, l, kept);
        let x = row::get(l, c, t);
        let q = x / p;
        let step = rounding::result_in_range(x, p, q);
        ok = ok & (!known | step);
        vector::put(l, q, w);
    }
    ok
}

// The sum of x_il·w_l over the known l, rising from plus zero.
fn column_sum(
    n: usize,
    c: usize,
    i: usize,
    kept: &[bool; 32],
    w: &[f64; 32],
    x: &[f64; 1024],
) -> Sum
    requires { (n ≤ 32) × (i < 32) }
    ensures { KnownSum (knows c (marked kept.now)) (table x.now i) (vector w.now) n result.value result.ok }
{
    let mut sum = 0.0;
    let mut ok = true;
    for l in 0..n {
        if is_known(c, l, kept) {
            let y = row::get(i, l, x);
            let z = vector::get(l, w);
            let product = y * z;
            let step = rounding::result_in_range(y, z, product);
            ok = ok & step;
            sum = sum + product;
        }
    }
    Sum { value: sum, ok }
}

// Place (i, c), if i is known; true if its steps are in range. A finite sum has every addition in range.
fn fill_place(
    n: usize,
    c: usize,
    i: usize,
    kept: &[bool; 32],
    w: &[f64; 32],
    x: &mut [f64; 1024],
) -> bool
    requires { (n ≤ 32) × (c < 32) × (i < 32) }
    ensures { PlaceFilled n (knows c (marked kept.now)) c (vector w.now) i result (table x.old) x.new }
{
    if is_known(c, i, kept) {
        let sum = column_sum(n, c, i, kept, w, x);
        row::put(i, c, sum.value, x);
        let finite = rounding::is_finite(sum.value);
        return sum.ok & finite;
    }
    true
}

fn fill_column(n: usize, c: usize, kept: &[bool; 32], w: &[f64; 32], x: &mut [f64; 1024]) -> bool
    requires { (n ≤ 32) × (c < 32) }
    ensures { ColumnFilled n (knows c (marked kept.now)) c (vector w.now) result (table x.old) x.new }
{
    let mut ok = true;
    for i in 0..n {
        let place = fill_place(n, c, i, kept, w, x);
        ok = ok & place;
    }
    ok
}

// Stage c joins: its column, and its row, 1 / a_c at c and zeros; true if its steps are in range.
fn join(
    n: usize,
    c: usize,
    t: &[f64; 1024],
    a: &[f64; 32],
    kept: &[bool; 32],
    x: &mut [f64; 1024],
) -> bool
    requires { (n ≤ 32) × (c < 32) }
    ensures { let t = table t.entry.now in JoinDone n (knows c (marked kept.now)) c (λ l. t l c) (vector a.now c) result (table x.old) x.new }
{
    let p = vector::get(c, a);
    let mut w = [0.0; 32];
    let divisions = factors(n, c, p, t, kept, &mut w);
    let column = fill_column(n, c, kept, &w, x);
    row::clear(c, n, x);
    let corner = 1.0 / p;
    row::put(c, c, corner, x);
    let first = rounding::result_in_range(1.0, p, corner);
    first & divisions & column
}

// The stage that is due after q stages joins, unless it is kept; true if its steps are in range.
fn join_stage(
    n: usize,
    q: usize,
    t: &[f64; 1024],
    a: &[f64; 32],
    kept: &[bool; 32],
    x: &mut [f64; 1024],
) -> bool
    requires { (q < n) × (n ≤ 32) }
    ensures { StageJoins n (table t.now) (vector a.now) (marked kept.now) q (table x.old) result x.new }
{
    let c = n - 1 - q;
    if kept[c] {
        return true;
    }
    join(n, c, t, a, kept, x)
}

// All of them; true if every step is in range.
pub fn join_stages(
    n: usize,
    t: &[f64; 1024],
    a: &[f64; 32],
    kept: &[bool; 32],
    x: &mut [f64; 1024],
) -> bool
    requires { n ≤ 32 }
    ensures { StagesJoin n (table t.now) (vector a.now) (marked kept.now) (table x.old) n result x.new }
{
    let mut ok = true;
    for q in 0..n {
        let stage = join_stage(n, q, t, a, kept, x);
        ok = ok & stage;
    }
    ok
}
