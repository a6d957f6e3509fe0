// The range tests, from the numbers before the steps; quotients are tested where they are made. That a
// result is finite is tested at the pivots, the upward multipliers and the answers alone: what is not
// finite shows there. A product is tested by a bound of the numbers that it multiplies; where that is
// too small, the row's products are tested one by one. What a public test says where a result that it
// does not look at is not finite is left open (`Told`).
#![tactic(auto)]

ghost use Rattle.std.specs.Prelude.{◌≡◌, ◌-◌, ◌≤◌, ◌<◌};
ghost use Rattle.std.specs.Float.Ieee.{lt};
ghost use Rattle.definitions.specs.Numbers.{◌⊗◌, ◌⊘◌, smallest, all};
ghost use Rattle.tables.specs.RowMajor.{table};
ghost use Rattle.tables.specs.Rows.{times_in_range};
ghost use Rattle.bounds.specs.Bounds.{Covering};
ghost use Rattle.passes.specs.StageTests.{RowTold};
ghost use Rattle.ranges.specs.Quick.{QuickMultiplier, QuickRow};

use tables::row;

// Whether m times the bound lo is above 2^-1022.
fn above(m: f64, lo: f64) -> bool
    ensures { result ≡ lt smallest (m ⊗ lo) }
{
    2.2250738585072014e-308 < m * lo
}

// The quick test of a multiplier m of numbers whose bound is lo.
fn quick(m: f64, lo: f64) -> bool
    ensures { QuickMultiplier m lo result }
{
    (m == 0.0) | above(m, lo)
}

// The products of m with the numbers of row k, one by one, in the columns from lo up to hi.
pub fn products_in_range(k: usize, m: f64, lo: usize, hi: usize, a: &[f64; 1024]) -> bool
    requires { (k < 32) × (lo ≤ hi) × (hi ≤ 32) }
    ensures { result ≡ all (times_in_range m (table a.now k)) lo (hi - lo) }
{
    let mut ok = true;
    for j in lo..hi {
        let y = row::get(k, j, a);
        let step = rounding::result_in_range(m, y, m * y);
        ok = ok & step;
    }
    ok
}

// Row i at stage k, whose pivot is p and whose multiplier m: lo bounds row k's running sum and sizes. Of row i
// it looks at column k alone.
pub fn row_told(r: usize, k: usize, i: usize, p: f64, m: f64, lo: f64, t: &[f64; 1024]) -> bool
    requires { (k < i) × (i < r) × (r ≤ 32) × (m ≡ table t.now i k ⊘ p) × Covering lo (table t.now k) k r }
    ensures { let f = table t.now in RowTold r k i p (f i k) (f k) result }
{
    let x = row::get(i, k, t);
    if x == 0.0 {
        return true;
    }
    if above(m, lo) {
        return true;
    }
    let multiplier = rounding::result_in_range(x, p, m);
    let left = products_in_range(k, m, k, i, t);
    let right = products_in_range(k, m, i + 1, r, t);
    multiplier & (left & right)
}

// The quick test of the multipliers of row i in the columns from `from` up to `to`.
pub fn row_quick(i: usize, from: usize, to: usize, lo: f64, t: &[f64; 1024]) -> bool
    requires { (i < 32) × (from ≤ to) × (to ≤ 32) }
    ensures { QuickRow lo (table t.now i) from to result }
{
    let mut ok = true;
    for k in from..to {
        let m = row::get(i, k, t);
        let step = quick(m, lo);
        ok = ok & step;
    }
    ok
}
