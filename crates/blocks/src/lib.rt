// Rows of a working table added to a row, eight numbers at a time: they stay in registers while the
// rows are added. Blocks are whole, so the last one of a row may run on past the columns in use.
#![tactic(auto)]

ghost use Rattle.std.specs.Prelude.{◌≡◌, ℕ, ◌+◌, ◌≤◌, ◌<◌, Float};
ghost use Rattle.tables.specs.RowMajor.{table, Holds};
ghost use Rattle.tables.specs.Operators.{span};
ghost use Rattle.tables.specs.Rows.{plus_multiple};
ghost use Rattle.passes.specs.RowPass.{staged};
ghost use Rattle.blocks.specs.Blocks.{Carries, nth, Reaches};

use tables::row;

// Eight numbers of a row.
#[derive(Clone, Copy)]
struct Eight {
    a: f64,
    b: f64,
    c: f64,
    d: f64,
    e: f64,
    f: f64,
    g: f64,
    h: f64,
}

fn load(i: usize, j: usize, t: &[f64; 1024]) -> Eight
    requires { (i < 32) × (j + 8 ≤ 32) }
    ensures { Carries result (table t.now i) j }
{
    Eight {
        a: row::get(i, j, t),
        b: row::get(i, j + 1, t),
        c: row::get(i, j + 2, t),
        d: row::get(i, j + 3, t),
        e: row::get(i, j + 4, t),
        f: row::get(i, j + 5, t),
        g: row::get(i, j + 6, t),
        h: row::get(i, j + 7, t),
    }
}

// With m times the numbers of row k in the same columns.
fn add(x: Eight, m: f64, k: usize, j: usize, t: &[f64; 1024]) -> Eight
    requires { (k < 32) × (j + 8 ≤ 32) }
    ensures { (own : ℕ → Float) → Carries x own j → Carries result (plus_multiple m own (table t.now k)) j }
{
    Eight {
        a: x.a + m * row::get(k, j, t),
        b: x.b + m * row::get(k, j + 1, t),
        c: x.c + m * row::get(k, j + 2, t),
        d: x.d + m * row::get(k, j + 3, t),
        e: x.e + m * row::get(k, j + 4, t),
        f: x.f + m * row::get(k, j + 5, t),
        g: x.g + m * row::get(k, j + 6, t),
        h: x.h + m * row::get(k, j + 7, t),
    }
}

fn store(x: Eight, i: usize, j: usize, t: &mut [f64; 1024])
    requires { (i < 32) × (j + 8 ≤ 32) }
    ensures { (own : ℕ → Float) → Carries x own j → Holds t.new (span i j (j + 8) own (table t.old)) }
{
    row::put(i, j, x.a, t);
    row::put(i, j + 1, x.b, t);
    row::put(i, j + 2, x.c, t);
    row::put(i, j + 3, x.d, t);
    row::put(i, j + 4, x.e, t);
    row::put(i, j + 5, x.f, t);
    row::put(i, j + 6, x.g, t);
    row::put(i, j + 7, x.h, t);
}

// The row that comes q rows after `first`, rising or falling.
fn nth<const FALLING: bool>(first: usize, q: usize) -> usize
    requires { (q < 32) × (first < 32) × Reaches first q FALLING }
    ensures { result ≡ nth first FALLING q }
{
    if FALLING {
        return first - q;
    }
    first + q
}

// Adds `count` rows of b, from row `first` on, rising or falling, to eight numbers of row i from column
// j on, with the multipliers of row i in t.
pub fn add_rows<const FALLING: bool>(
    i: usize,
    j: usize,
    first: usize,
    count: usize,
    t: &[f64; 1024],
    b: &mut [f64; 1024],
)
    requires { (i < 32) × (j + 8 ≤ 32) × (first < 32) × Reaches first count FALLING }
    ensures { let f = table b.old in Holds b.new (span i j (j + 8) (staged (nth first FALLING) (table t.now) f i count) f) }
{
    let mut x = load(i, j, b);
    for q in 0..count {
        let k = nth::<FALLING>(first, q);
        let m = row::get(i, k, t);
        x = add(x, m, k, j, b);
    }
    store(x, i, j, b);
}
