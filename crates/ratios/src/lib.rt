// a_i and k_i of every stage, rising, and which stages are kept: h_i needs the k_j of the stages before i
// (document 01, "Steps for margins").
#![tactic(auto)]

ghost use Rattle.std.specs.Prelude.{◌≡◌, suc, ◌-◌, ◌≤◌, ◌<◌};
ghost use Rattle.definitions.specs.Numbers.{0·0, sum};
ghost use Rattle.tables.specs.RowMajor.{table};
ghost use Rattle.tables.specs.Vectors.{vector, VectorHolds};
ghost use Rattle.ratios.specs.Ratios.{RatiosBefore, RatiosTested, StageTested};

use tables::{row, vector};

// The sum goes on from start with t_ij over j > i.
fn sum_after(n: usize, i: usize, start: f64, t: &[f64; 1024]) -> f64
    requires { (i < n) × (n ≤ 32) }
    ensures { result ≡ sum start (table t.now i) (suc i) (n - suc i) }
{
    let mut sum = start;
    for j in i + 1..n {
        let x = row::get(i, j, t);
        sum = sum + x;
    }
    sum
}

// Stage i, where the stages before it are done; true if its steps are in range. A finite a_i has every
// addition of h_i in range.
fn stage(
    n: usize,
    i: usize,
    t: &[f64; 1024],
    d: &[f64; 32],
    a: &mut [f64; 32],
    k: &mut [f64; 32],
    kept: &mut [bool; 32],
) -> bool
    requires { (i < n) × (n ≤ 32) × RatiosBefore n (table t.now) (vector d.now) i a.old k.old kept.old }
    ensures { StageTested n (table t.now) (vector d.now) i result a.new k.new kept.new }
{
    let before = rows::dot(i, 0, i, t, k);
    let sum = sum_after(n, i, before.value, t);
    let margin = vector::get(i, d);
    let diagonal = margin + sum;
    let ratio = sum / diagonal;
    vector::put(i, diagonal, a);
    vector::put(i, ratio, k);
    kept[i] = sum != 0.0;
    let finite = rounding::is_finite(diagonal);
    let quotient = rounding::result_in_range(sum, diagonal, ratio);
    before.ok & finite & quotient
}

// Every stage below n; true if all their steps are in range. k is lent as zeros, as the definition's k_j of
// a stage that is not done. Later places of a and of kept are left open.
pub fn fill(
    n: usize,
    t: &[f64; 1024],
    d: &[f64; 32],
    a: &mut [f64; 32],
    k: &mut [f64; 32],
    kept: &mut [bool; 32],
) -> bool
    requires { (n ≤ 32) × VectorHolds k.old (λ _. 0·0) }
    ensures { RatiosTested n (table t.now) (vector d.now) n result a.new k.new kept.new }
{
    let mut ok = true;
    for i in 0..n {
        let step = stage(n, i, t, d, a, k, kept);
        ok = ok & step;
    }
    ok
}
