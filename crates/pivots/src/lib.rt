// A stage's running sum and pivot (document 02, U8 and U10), on the table t of sizes and leaving rates and the weights,
// which are none where no number is lent.
#![tactic(auto)]

ghost use Rattle.std.specs.Prelude.{◌≡◌, suc, ◌-◌, ◌≤◌, ◌<◌, length};
ghost use Rattle.definitions.specs.LeavingRates.{none, later_sizes, products_in_range, pivot_in_range};
ghost use Rattle.tables.specs.RowMajor.{table};
ghost use Rattle.passes.specs.Weights.{weights_in, Enough};
ghost use Rattle.passes.specs.Multipliers.{system_in};
ghost use Rattle.passes.specs.Stages.{IsStage};

use rows::Sum;
use tables::row;

// A stage's running sum s and pivot p.
#[derive(Clone, Copy)]
pub struct Stage {
    pub s: f64,
    pub p: f64,
}

// A stage that has begun, and whether its steps so far are in range.
// Contracts promise the stage also where a step is not in range, so it is no Option.
#[derive(Clone, Copy)]
pub struct Begun {
    pub stage: Stage,
    pub ok: bool,
}

// The sizes of row k from the last column back to the diagonal.
fn later_sizes(r: usize, k: usize, t: &[f64; 1024]) -> f64
    requires { (k < r) × (r ≤ 32) }
    ensures { result ≡ later_sizes r (system_in none (table t.now)) k }
{
    let mut sum = 0.0;
    for q in 0..r - (k + 1) {
        let x = row::get(k, r - (q + 1), t);
        sum = sum + x;
    }
    sum
}

// The same with each size times the weight of its column.
fn later_products(r: usize, k: usize, weights: &[f64], t: &[f64; 1024]) -> Sum
    requires { (k < r) × (r ≤ 32) × (r ≤ length weights.now) }
    ensures { let w = weights_in weights.now in let f = table t.now in (result.value ≡ later_sizes r (system_in w f) k) × (result.ok ≡ products_in_range w (f k) (suc k) (r - suc k)) }
{
    let mut sum = 0.0;
    let mut ok = true;
    for q in 0..r - (k + 1) {
        let j = r - (q + 1);
        let x = row::get(k, j, t);
        let z = weights[j];
        let product = x * z;
        let step = rounding::result_in_range(x, z, product);
        ok = ok & step;
        sum = sum + product;
    }
    Sum { value: sum, ok }
}

// Stage k's running sum s_k and its pivot, for which s_k is added last, and whether the pivot's steps are in range.
// Without weights they are where it is finite.
pub fn begin(r: usize, k: usize, weights: &[f64], t: &[f64; 1024]) -> Begun
    requires { (k < r) × (r ≤ 32) × Enough r weights.now }
    ensures { let w = weights_in weights.now in let f = table t.now in IsStage w r k f result.stage.s result.stage.p × (result.ok ≡ pivot_in_range r (system_in w f) k) }
{
    let s = row::get(k, k, t);
    if weights.len() == 0 {
        let p = later_sizes(r, k, t) + s;
        let ok = rounding::is_finite(p);
        return Begun {
            stage: Stage { s, p },
            ok,
        };
    }
    let sum = later_products(r, k, weights, t);
    let z = weights[k];
    let total = sum.value + s;
    let p = total / z;
    let step = rounding::result_in_range(total, z, p);
    Begun {
        stage: Stage { s, p },
        ok: sum.ok & step,
    }
}
