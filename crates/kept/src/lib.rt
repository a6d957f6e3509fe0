// The system of the kept stages in compact order: the new sizes off the diagonal, the new leaving rates on
// it (document 01, "Steps for margins").
#![tactic(auto)]

ghost use Rattle.std.specs.Prelude.{◌≤◌, ◌<◌};
ghost use Rattle.tables.specs.RowMajor.{table};
ghost use Rattle.tables.specs.Vectors.{vector};
ghost use Rattle.compact.specs.Listing.{StagesBelow};
ghost use Rattle.kept.specs.Scaled.{in_order, SizesScaled, RowScaled, RowsScaled, KeptList, KeptSystem};

use compact::Stages;
use tables::{row, vector};

// Row p of the packed sizes, each times k of its column's stage; true if these steps are in range. There
// is none on the diagonal, where the leaving rate comes.
fn scale_row(p: usize, stages: &Stages, k: &[f64; 32], s: &mut [f64; 1024]) -> bool
    requires { p < stages.now.count }
    ensures { SizesScaled stages.now.count (in_order stages.now.places (vector k.now)) p result (table s.old) s.new }
{
    let mut ok = true;
    for q in 0..stages.count {
        let j = stages.stage(q);
        let x = row::get(p, q, s);
        let y = vector::get(j, k);
        let product = x * y;
        let step = rounding::result_in_range(x, y, product);
        let own = q == p;
        ok = ok & (own | step);
        row::put(p, q, product, s);
    }
    ok
}

// Row p: its new sizes, and its new leaving rate on the diagonal, by the shares w.
fn system_row(
    n: usize,
    p: usize,
    stages: &Stages,
    t: &[f64; 1024],
    k: &[f64; 32],
    w: &[f64; 32],
    s: &mut [f64; 1024],
) -> bool
    requires { (n ≤ 32) × (p < stages.now.count) × StagesBelow n stages.now.count stages.now.places }
    ensures { RowScaled n stages.now.count stages.now.places (table t.now) (vector k.now) (vector w.now) p result (table s.old) s.new }
{
    let sizes = scale_row(p, stages, k, s);
    let i = stages.stage(p);
    let rate = rows::dot(i, i + 1, n, t, w);
    row::put(p, p, rate.value, s);
    let finite = rounding::is_finite(rate.value);
    sizes & rate.ok & finite
}

fn system_rows(
    n: usize,
    stages: &Stages,
    t: &[f64; 1024],
    k: &[f64; 32],
    w: &[f64; 32],
    s: &mut [f64; 1024],
) -> bool
    requires { (n ≤ 32) × StagesBelow n stages.now.count stages.now.places }
    ensures { RowsScaled n stages.now.count stages.now.places (table t.now) (vector k.now) (vector w.now) result (table s.old) s.new }
{
    let mut ok = true;
    for p in 0..stages.count {
        let row = system_row(n, p, stages, t, k, w, s);
        ok = ok & row;
    }
    ok
}

// The system of the kept stages, in s; true if every step on the way is in range. The places of s outside it are
// left open.
pub fn system(
    n: usize,
    stages: &Stages,
    t: &[f64; 1024],
    d: &[f64; 32],
    a: &[f64; 32],
    k: &[f64; 32],
    kept: &[bool; 32],
    s: &mut [f64; 1024],
) -> bool
    requires { (n ≤ 32) × KeptList n (table t.now) (vector d.now) a.now k.now kept.now stages.now.count stages.now.places }
    ensures { KeptSystem n (table t.now) (vector d.now) stages.now.count result s.new }
{
    let mut w = [0.0; 32];
    let divisions = shares::shares(n, d, a, kept, &mut w);
    stages.pack(t, s);
    let rows = system_rows(n, stages, t, k, &w, s);
    divisions & rows
}
