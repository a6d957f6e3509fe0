// The way back from the engine's answer to the kept stages: each row times k of its stage (document 01, "Steps for
// margins").
#![tactic(auto)]

ghost use Rattle.std.specs.Prelude.{◌≤◌, ◌<◌};
ghost use Rattle.definitions.specs.Numbers.{all};
ghost use Rattle.tables.specs.RowMajor.{table, Gives};
ghost use Rattle.tables.specs.Operators.{span};
ghost use Rattle.tables.specs.Rows.{times_in_range};
ghost use Rattle.tables.specs.Vectors.{vector};
ghost use Rattle.way_back.specs.WayBack.{multiple, WayBack};

use compact::Stages;
use tables::{row, vector};

// The first r numbers of row p times m; true if these steps are in range.
fn multiply(p: usize, m: f64, r: usize, y: &mut [f64; 1024]) -> bool
    requires { (p < 32) × (r ≤ 32) }
    ensures { let f = table y.old in Gives result (all (times_in_range m (f p)) 0 r) y.new (span p 0 r (multiple m (f p)) f) }
{
    let mut ok = true;
    for q in 0..r {
        let x = row::get(p, q, y);
        let product = m * x;
        let step = rounding::result_in_range(m, x, product);
        ok = ok & step;
        row::put(p, q, product, y);
    }
    ok
}

// The rows of y, each times k of its stage; true if these steps are in range.
pub fn back(stages: &Stages, k: &[f64; 32], y: &mut [f64; 1024]) -> bool
    ensures { WayBack stages.now.count stages.now.places (vector k.now) (table y.old) result y.new }
{
    let mut ok = true;
    for p in 0..stages.count {
        let i = stages.stage(p);
        let m = vector::get(i, k);
        let row = multiply(p, m, stages.count, y);
        ok = ok & row;
    }
    ok
}
