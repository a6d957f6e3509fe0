// A bound of the nonzero numbers of a row from below, at most one. The quick range test multiplies
// the bound in the place of each number. Four bounds are kept side by side, since each comparison
// waits for the one before it.
#![tactic(auto)]

ghost use Rattle.std.specs.Prelude.{◌≡◌, cond, ◌+◌, ◌*◌, ◌≤◌, ◌<◌};
ghost use Rattle.std.specs.Float.Ieee.{lt};
ghost use Rattle.definitions.specs.Numbers.{0·0, 1·0, is_zero};
ghost use Rattle.tables.specs.RowMajor.{table};
ghost use Rattle.bounds.specs.Bounds.{Bound, Lowered, Least};
ghost use Rattle.bounds.specs.Fours.{FourBound, LoweredFour};

use tables::row;

// Four bounds, of every fourth number each.
#[derive(Clone, Copy)]
struct Four {
    a: f64,
    b: f64,
    c: f64,
    d: f64,
}

// Not the library's `min` and `max`, which pass over a NaN where this keeps y.
fn smaller(x: f64, y: f64) -> f64
    ensures { result ≡ cond (lt x y) x y }
{
    if x < y {
        return x;
    }
    y
}

fn larger(x: f64, y: f64) -> f64
    ensures { result ≡ cond (lt y x) x y }
{
    if y < x {
        return x;
    }
    y
}

// What the bound may be where x is not positive. A zero asks nothing: a product with it is zero, and no
// bound is above one. Any other such number is no size, and the bound zero passes no test.
fn floor(x: f64) -> f64
    ensures { result ≡ cond (is_zero x) 1·0 0·0 }
{
    if x == 0.0 {
        return 1.0;
    }
    0.0
}

// The bound for x too. It compiles to comparisons without a branch, so four bounds go through vector code.
fn lower(lo: f64, x: f64) -> f64
    requires { Bound lo }
    ensures { Lowered lo x result }
{
    smaller(lo, larger(x, floor(x)))
}

fn lower_four(lo: Four, k: usize, j: usize, a: &[f64; 1024]) -> Four
    requires { (k < 32) × (j + 4 ≤ 32) × FourBound lo.a lo.b lo.c lo.d }
    ensures { LoweredFour lo.a lo.b lo.c lo.d (table a.now k) j result.a result.b result.c result.d }
{
    Four {
        a: lower(lo.a, row::get(k, j, a)),
        b: lower(lo.b, row::get(k, j + 1, a)),
        c: lower(lo.c, row::get(k, j + 2, a)),
        d: lower(lo.d, row::get(k, j + 3, a)),
    }
}

// The bound for four times `count` numbers of row k.
fn least_of_fours(lo: f64, k: usize, from: usize, count: usize, a: &[f64; 1024]) -> f64
    requires { (k < 32) × (from + 4 * count ≤ 32) × Bound lo }
    ensures { Least lo (table a.now k) from (from + 4 * count) result }
{
    let mut four = Four {
        a: lo,
        b: lo,
        c: lo,
        d: lo,
    };
    for g in 0..count {
        four = lower_four(four, k, from + 4 * g, a);
    }
    smaller(smaller(four.a, four.c), smaller(four.b, four.d))
}

// The bound for the numbers of row k from `from` up to `to`, one by one.
fn least_of_few(lo: f64, k: usize, from: usize, to: usize, a: &[f64; 1024]) -> f64
    requires { (k < 32) × (from ≤ to) × (to ≤ 32) × Bound lo }
    ensures { Least lo (table a.now k) from to result }
{
    let mut least = lo;
    for j in from..to {
        let x = row::get(k, j, a);
        least = lower(least, x);
    }
    least
}

// The same, four by four where there are enough.
pub fn least(lo: f64, k: usize, from: usize, to: usize, a: &[f64; 1024]) -> f64
    requires { (k < 32) × (from ≤ to) × (to ≤ 32) × Bound lo }
    ensures { Least lo (table a.now k) from to result }
{
    if to - from < 8 {
        return least_of_few(lo, k, from, to, a);
    }
    let count = (to - from) / 4;
    let fours = least_of_fours(lo, k, from, count, a);
    least_of_few(fours, k, from + 4 * count, to, a)
}
