// The steps for margins on n stages, n at most 32 (document 01): the whole table of seconds of every
// sheet, number for number, and whether every step is in range. Nothing is asked of the numbers.
#![tactic(auto)]

ghost use Rattle.std.specs.Prelude.{◌≤◌};
ghost use Rattle.tables.specs.RowMajor.{table};
ghost use Rattle.tables.specs.Vectors.{vector};
ghost use Rattle.ratios.specs.Ratios.{RatiosBefore};
ghost use Rattle.margins.specs.MarginsTable.{KeptTable, MarginsTable};

use compact::Stages;

// The kept stages go through the engine; true if every step on the way is in range. With none kept there
// is no step to take.
fn solve_kept(
    n: usize,
    t: &[f64; 1024],
    d: &[f64; 32],
    a: &[f64; 32],
    k: &[f64; 32],
    kept: &[bool; 32],
    x: &mut [f64; 1024],
) -> bool
    requires { (n ≤ 32) × RatiosBefore n (table t.now) (vector d.now) n a.now k.now kept.now }
    ensures { KeptTable n (table t.now) (vector d.now) result x.new }
{
    let mut stages = Stages::none();
    let mut s = [0.0; 1024];
    let mut y = [0.0; 1024];
    stages.list(n, kept);
    let scaled = kept::system(n, &stages, t, d, a, k, kept, &mut s);
    let none = [0.0; 0];
    if !elimination::solve(stages.count, &none, &mut s, &mut y) {
        return false;
    }
    let back = way_back::back(&stages, k, &mut y);
    stages.unpack(&y, x);
    scaled & back
}

// The whole table of seconds, in x, of the sizes in t and the margins in d; true if every step is in range.
// What x holds before does not matter; afterwards it is left open outside n × n, and everywhere where a
// step is not in range.
pub fn solve_margins(n: usize, t: &[f64; 1024], d: &[f64; 32], x: &mut [f64; 1024]) -> bool
    requires { n ≤ 32 }
    ensures { MarginsTable n (table t.now) (vector d.now) result x.new }
{
    let mut a = [0.0; 32];
    let mut k = [0.0; 32];
    let mut kept = [false; 32];
    let ratios = ratios::fill(n, t, d, &mut a, &mut k, &mut kept);
    if !solve_kept(n, t, d, &a, &k, &kept, x) {
        return false;
    }
    let joined = joins::join_stages(n, t, &a, &kept, x);
    ratios & joined
}
