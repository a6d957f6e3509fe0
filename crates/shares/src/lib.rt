// The shares d_j / a_j of the new leaving rates (document 01, "Steps for margins").
#![tactic(auto)]

ghost use Rattle.std.specs.Prelude.{◌≤◌};
ghost use Rattle.tables.specs.Vectors.{vector};
ghost use Rattle.compact.specs.Listing.{marked};
ghost use Rattle.shares.specs.Shares.{Shares};

use tables::vector;

// The shares d_j / a_j of the stages; true if those above a kept stage are in range.
pub fn shares(n: usize, d: &[f64; 32], a: &[f64; 32], kept: &[bool; 32], w: &mut [f64; 32]) -> bool
    requires { n ≤ 32 }
    ensures { Shares (marked kept.now) (vector d.now) (vector a.now) n result w.new }
{
    let mut ok = true;
    let mut above = false;
    for j in 0..n {
        let x = vector::get(j, d);
        let y = vector::get(j, a);
        let share = x / y;
        let step = rounding::result_in_range(x, y, share);
        ok = ok & (!above | step);
        above = above | kept[j];
        vector::put(j, share, w);
    }
    ok
}
