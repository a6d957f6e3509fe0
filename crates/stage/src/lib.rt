// The stages of the steps that serve every column of b, two at a time, on the weights and the table t of sizes and leaving
// rates: s_i stands at place (i, i) until stage i is done, and p_i afterwards; the multiplier of row i at
// stage k takes the place (i, k), which no later step reads as a size.
#![tactic(auto)]

ghost use Rattle.std.specs.Prelude.{◌≡◌, suc, ◌≤◌, ◌<◌};
ghost use Rattle.tables.specs.RowMajor.{table, Holds};
ghost use Rattle.bounds.specs.Bounds.{Covering};
ghost use Rattle.passes.specs.Weights.{weights_in, Enough};
ghost use Rattle.passes.specs.Stages.{multiplied_rows};
ghost use Rattle.passes.specs.StageTests.{RowsTold, StageBegins, StageFinds, PairFinds};

use pivots::{Begun, Stage};
use tables::row;

// The multipliers of stage k's rows, and whether the rows' steps are in range. They have a loop of their
// own, since the sums of a row would wait for its division. Of the rows they look at column k alone.
fn multipliers(r: usize, k: usize, stage: Stage, lo: f64, t: &mut [f64; 1024]) -> bool
    requires { (k < r) × (r ≤ 32) × Covering lo (table t.old k) k r }
    ensures { let f = table t.old in RowsTold r k stage.p f result × Holds t.new (multiplied_rows k stage.p r f) }
{
    let mut ok = true;
    for i in k + 1..r {
        let m = row::get(i, k, t) / stage.p;
        let told = ranges::row_told(r, k, i, stage.p, m, lo, t);
        ok = ok & told;
        row::put(i, k, m, t);
    }
    ok
}

// Stage k up to its multipliers, with its pivot's steps and its rows' in range or not. What it tells is left open where
// a result of the rows is not finite.
fn begin(r: usize, k: usize, weights: &[f64], t: &mut [f64; 1024]) -> Begun
    requires { (k < r) × (r ≤ 32) × Enough r weights.now }
    ensures { StageBegins (weights_in weights.now) r k (table t.old) result.stage.s result.stage.p result.ok t.new }
{
    let pivot = pivots::begin(r, k, weights, t);
    let lo = bounds::least(1.0, k, k, r, t);
    let rows = multipliers(r, k, pivot.stage, lo, t);
    Begun {
        stage: pivot.stage,
        ok: pivot.ok & rows,
    }
}

// Stages k and k + 1, and whether their pivots' steps and their rows' are in range, as in `begin`.
// Stage k does at first what stage k + 1 needs of it to begin, so that the later rows take both at once. Where
// no rows are left, stage k + 1 is the last.
pub fn eliminate_pair(r: usize, k: usize, weights: &[f64], t: &mut [f64; 1024]) -> bool
    requires { (suc k < r) × (r ≤ 32) × Enough r weights.now }
    ensures { PairFinds (weights_in weights.now) r k (table t.old) result t.new }
{
    let first = begin(r, k, weights, t);
    schur::begin_next(r, k, first.stage, t);
    if k + 2 == r {
        row::put(k, k, first.stage.p, t);
        let told = last(r, k + 1, weights, t);
        return first.ok & told;
    }
    let second = begin(r, k + 1, weights, t);
    schur::eliminate_pair(r, k, first.stage, second.stage, t);
    row::put(k, k, first.stage.p, t);
    row::put(k + 1, k + 1, second.stage.p, t);
    first.ok & second.ok
}

// The last stage, which has no rows: its pivot in its place, and whether its steps are in range.
pub fn last(r: usize, k: usize, weights: &[f64], t: &mut [f64; 1024]) -> bool
    requires { (suc k ≡ r) × (r ≤ 32) × Enough r weights.now }
    ensures { StageFinds (weights_in weights.now) r k (table t.old) result t.new }
{
    let pivot = pivots::begin(r, k, weights, t);
    row::put(k, k, pivot.stage.p, t);
    pivot.ok
}
