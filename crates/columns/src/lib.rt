// The steps on b, for all columns at once. The table t holds what the steps on sizes and leaving rates
// leave: the pivots on the diagonal, and at place (i, k) the multiplier of row i at stage k.
//
// Document 01 takes the stages one after another; here the rows take turns, and each number gets the same
// steps in the same order. Downward the rows rise and row k has nothing right of column k, upward they
// fall. Places of b outside r × r are left open: blocks of eight columns run over them.
#![tactic(auto)]

ghost use Rattle.std.specs.Prelude.{◌≡◌, ◌≤◌, ◌<◌};
ghost use Rattle.definitions.specs.Numbers.{all};
ghost use Rattle.tables.specs.RowMajor.{ZeroTable, table, Holds, Gives};
ghost use Rattle.ranges.specs.Quick.{products_at};
ghost use Rattle.passes.specs.RowPass.{turn, reach, identity_rows, divided_rows, quotients_in_range};
ghost use Rattle.columns.specs.Columns.{CoversDone, TurnTold, PassStarts, PassDone};

use tables::row;

// The identity of r × r, in a table of zeros.
pub fn identity(r: usize, b: &mut [f64; 1024])
    requires { (r ≤ 32) × ZeroTable b.old }
    ensures { Holds b.new (identity_rows r r (table b.old)) }
{
    for i in 0..r {
        row::put(i, i, 1.0, b);
    }
}

// The products of turn s, one by one.
fn products_told<const FALLING: bool>(r: usize, s: usize, t: &[f64; 1024], b: &[f64; 1024]) -> bool
    requires { (s < r) × (r ≤ 32) }
    ensures { result ≡ all (λ q. products_at (reach r FALLING q) (table t.now (turn r FALLING s)) (table b.now) (turn r FALLING q)) 0 s }
{
    let i = turns::turn::<FALLING>(r, s);
    let mut ok = true;
    for q in 0..s {
        let k = turns::turn::<FALLING>(r, q);
        let m = row::get(i, k, t);
        let products = ranges::products_in_range(k, m, 0, turns::reach::<FALLING>(r, q), b);
        ok = ok & products;
    }
    ok
}

// Turn s: lo bounds the rows that are added.
fn row_told<const FALLING: bool>(
    r: usize,
    s: usize,
    lo: f64,
    t: &[f64; 1024],
    b: &[f64; 1024],
) -> bool
    requires { (s < r) × (r ≤ 32) × CoversDone r FALLING s lo (table b.now) }
    ensures { TurnTold r FALLING s (table t.now) (table b.now) result }
{
    let from = turns::first_done::<FALLING>(r, s);
    if ranges::row_quick(turns::turn::<FALLING>(r, s), from, from + s, lo, t) {
        return true;
    }
    products_told::<FALLING>(r, s, t, b)
}

// The downward steps, or with FALLING the upward ones, and whether they are in range: lo bounds the rows that are
// done. The answer is left open where a result is not finite.
pub fn pass<const FALLING: bool>(r: usize, t: &[f64; 1024], b: &mut [f64; 1024]) -> bool
    requires { (r ≤ 32) × PassStarts r FALLING (table t.now) (table b.old) }
    ensures { PassDone r FALLING (table t.now) (table b.old) result b.new }
{
    let mut ok = true;
    let mut lo = 1.0;
    for s in 1..r {
        lo = bounds::least(
            lo,
            turns::turn::<FALLING>(r, s - 1),
            0,
            turns::reach::<FALLING>(r, s - 1),
            b,
        );
        let told = row_told::<FALLING>(r, s, lo, t, b);
        ok = ok & told;
        turns::add_done::<FALLING>(r, s, t, b);
    }
    ok
}

// The last division, and whether its steps are in range.
pub fn quotients(r: usize, t: &[f64; 1024], b: &mut [f64; 1024]) -> bool
    requires { r ≤ 32 }
    ensures { let g = table t.now in let f = table b.old in Gives result (quotients_in_range r g f) b.new (divided_rows r r g f) }
{
    let mut ok = true;
    for i in 0..r {
        let p = row::get(i, i, t);
        let row = rows::divide(i, p, r, b);
        ok = ok & row;
    }
    ok
}
