// The steps for leaving rates on r stages in compact order, r at most 32 (document 01): the quotients of
// every system, with weights or without, number for number, and whether every step is in range. Nothing is asked of the
// numbers.
//
// The working tables are 1,024 numbers, 32 to a row, whatever r is.
#![tactic(auto)]

ghost use Rattle.std.specs.Prelude.{◌≤◌};
ghost use Rattle.tables.specs.RowMajor.{ZeroTable, table};
ghost use Rattle.passes.specs.Weights.{weights_in, Enough};
ghost use Rattle.elimination.specs.Quotients.{QuotientTable};

// The whole table of quotients, in b, of the system in t with those weights; true if every step is in range. b holds zeros
// before; afterwards it is left open outside r × r, and everywhere where a step is not in range, and so is
// t.
pub fn solve(r: usize, weights: &[f64], t: &mut [f64; 1024], b: &mut [f64; 1024]) -> bool
    requires { (r ≤ 32) × Enough r weights.now × ZeroTable b.old }
    ensures { QuotientTable (weights_in weights.now) r (table t.old) result b.new }
{
    if !downward::shared(r, weights, t) {
        return false;
    }
    columns::identity(r, b);
    let down = columns::pass::<false>(r, t, b);
    let up = columns::pass::<true>(r, t, b);
    let last = columns::quotients(r, t, b);
    down & up & last
}
