// The rows of b take turns: downward they rise, upward they fall, and each gets the rows that are done added to
// it, block by block. Places of b outside r × r are left open: blocks of eight columns run over them. The order is
// a const parameter, so that the loops have no branch on it.
#![tactic(auto)]

ghost use Rattle.std.specs.Prelude.{◌≡◌, ◌≤◌, ◌<◌};
ghost use Rattle.tables.specs.RowMajor.{table};
ghost use Rattle.passes.specs.RowPass.{turn, reach, staged};
ghost use Rattle.turns.specs.Turns.{skipped, first_done, Skips, RowBecomes};

// The row of turn q.
pub fn turn<const FALLING: bool>(r: usize, q: usize) -> usize
    requires { (q < r) × (r ≤ 32) }
    ensures { result ≡ turn r FALLING q }
{
    if FALLING {
        return r - 1 - q;
    }
    q
}

// The columns in which the row of turn q is added.
pub fn reach<const FALLING: bool>(r: usize, q: usize) -> usize
    requires { (q < r) × (r ≤ 32) }
    ensures { result ≡ reach r FALLING q }
{
    if FALLING {
        return r;
    }
    q + 1
}

// The first turn that changes anything in the columns from j on.
fn skipped<const FALLING: bool>(j: usize) -> usize
    ensures { result ≡ skipped FALLING j }
{
    if FALLING {
        return 0;
    }
    j
}

// The first of the s rows that are done before turn s.
pub fn first_done<const FALLING: bool>(r: usize, s: usize) -> usize
    requires { (s ≤ r) × (r ≤ 32) }
    ensures { result ≡ first_done r FALLING s }
{
    if FALLING {
        return r - s;
    }
    0
}

// The rows that are done are added to the row of turn s, block by block.
pub fn add_done<const FALLING: bool>(r: usize, s: usize, t: &[f64; 1024], b: &mut [f64; 1024])
    requires { (s < r) × (r ≤ 32) × Skips r FALLING s (table t.now) (table b.old) }
    ensures { let κ = turn r FALLING in RowBecomes (κ s) r (staged κ (table t.now) (table b.old) (κ s) s) b.old b.new }
{
    let i = turn::<FALLING>(r, s);
    let width = reach::<FALLING>(r, s);
    for block in 0..(width + 7) / 8 {
        let j = 8 * block;
        let from = skipped::<FALLING>(j);
        let first = turn::<FALLING>(r, from);
        blocks::add_rows::<FALLING>(i, j, first, s - from, t, b);
    }
}
