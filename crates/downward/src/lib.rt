// The steps that serve every column of b, on the weights and the table t of sizes and leaving rates: every stage, and
// then the upward multipliers in the place of the sizes after the diagonal.
#![tactic(auto)]

ghost use Rattle.std.specs.Prelude.{◌≡◌, ℕ, suc, ◌≤◌, ◌<◌};
ghost use Rattle.definitions.specs.Numbers.{all};
ghost use Rattle.tables.specs.RowMajor.{table, Gives};
ghost use Rattle.tables.specs.Vectors.{vector, VectorHolds};
ghost use Rattle.tables.specs.Operators.{between, span};
ghost use Rattle.passes.specs.Weights.{weights_in, Enough};
ghost use Rattle.passes.specs.Stages.{stages_done, stages_in_range, over_pivot, upward_rows, upward_row_in_range};
ghost use Rattle.downward.specs.Downward.{on_diagonal, SharedTable};

use tables::{row, vector};

// Every stage, two at a time and then the one that is left, and whether their steps are in range.
fn stages(r: usize, weights: &[f64], t: &mut [f64; 1024]) -> bool
    requires { (r ≤ 32) × Enough r weights.now }
    ensures { let w = weights_in weights.now in let f = table t.old in Gives result (stages_in_range w r f r) t.new (stages_done w r f r) }
{
    let mut ok = true;
    for pair in 0..r / 2 {
        let told = stage::eliminate_pair(r, 2 * pair, weights, t);
        ok = ok & told;
    }
    if r % 2 == 0 {
        return ok;
    }
    let told = stage::last(r, r - 1, weights, t);
    ok & told
}

// The pivots side by side, since a row's divisors stand on the diagonal, one in each row.
fn pivots(r: usize, t: &[f64; 1024], p: &mut [f64; 32])
    requires { r ≤ 32 }
    ensures { VectorHolds p.new (between 0 r (on_diagonal (table t.now)) (vector p.old)) }
{
    for k in 0..r {
        let x = row::get(k, k, t);
        vector::put(k, x, p);
    }
}

// The upward multipliers of row i, its sizes after the diagonal over the pivots p of their columns, and
// whether they are in range.
fn upward_row(r: usize, i: usize, p: &[f64; 32], t: &mut [f64; 1024]) -> bool
    requires { (i < r) × (r ≤ 32) × ((k : ℕ) → i < k → k < r → vector p.now k ≡ on_diagonal (table t.old) k) }
    ensures { let f = table t.old in Gives result (upward_row_in_range r f i) t.new (span i (suc i) r (over_pivot f i) f) }
{
    let mut ok = true;
    for k in i + 1..r {
        let x = row::get(i, k, t);
        let y = vector::get(k, p);
        let m = x / y;
        let step = rounding::result_in_range(x, y, m);
        ok = ok & step;
        row::put(i, k, m, t);
    }
    ok
}

fn upward_rows(r: usize, t: &mut [f64; 1024]) -> bool
    requires { r ≤ 32 }
    ensures { let f = table t.old in Gives result (all (upward_row_in_range r f) 0 r) t.new (upward_rows r r f) }
{
    let mut p = [0.0; 32];
    pivots(r, t, &mut p);
    let mut ok = true;
    for i in 0..r {
        let row = upward_row(r, i, &p, t);
        ok = ok & row;
    }
    ok
}

// All of them, and whether they are in range. What t holds outside r × r afterwards is left open.
pub fn shared(r: usize, weights: &[f64], t: &mut [f64; 1024]) -> bool
    requires { (r ≤ 32) × Enough r weights.now }
    ensures { SharedTable (weights_in weights.now) r (table t.old) result t.new }
{
    let down = stages(r, weights, t);
    let up = upward_rows(r, t);
    down & up
}
