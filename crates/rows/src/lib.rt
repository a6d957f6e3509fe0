// Operations on the rows of a working table.
#![tactic(auto)]

ghost use Rattle.std.specs.Prelude.{◌-◌, ◌≤◌, ◌<◌, ◌≡◌};
ghost use Rattle.definitions.specs.Numbers.{all};
ghost use Rattle.tables.specs.RowMajor.{table, Holds, Gives};
ghost use Rattle.tables.specs.Operators.{span};
ghost use Rattle.tables.specs.Rows.{plus_multiple, over, over_in_range, Dot};
ghost use Rattle.tables.specs.Vectors.{vector};

use tables::{row, vector};

// Adds m times row k to row i, in the columns from lo up to hi.
pub fn add_multiple(i: usize, k: usize, m: f64, lo: usize, hi: usize, a: &mut [f64; 1024])
    requires { (i < 32) × (k < 32) × (k ≡ i → ⊥) × (lo ≤ hi) × (hi ≤ 32) }
    ensures { let f = table a.old in Holds a.new (span i lo hi (plus_multiple m (f i) (f k)) f) }
{
    for j in lo..hi {
        let x = row::get(i, j, a);
        let y = row::get(k, j, a);
        row::put(i, j, x + m * y, a);
    }
}

// Divides the first r numbers of row i by p, and tells whether these steps are in range.
pub fn divide(i: usize, p: f64, r: usize, a: &mut [f64; 1024]) -> bool
    requires { (i < 32) × (r ≤ 32) }
    ensures { let f = table a.old in Gives result (all (over_in_range p (f i)) 0 r) a.new (span i 0 r (over p (f i)) f) }
{
    let mut ok = true;
    for j in 0..r {
        let x = row::get(i, j, a);
        let q = x / p;
        let step = rounding::result_in_range(x, p, q);
        ok = ok & step;
        row::put(i, j, q, a);
    }
    ok
}

// A sum of products, and whether the products are in range; the additions are where the sum is finite.
// Contracts promise the value also where a product is not in range, so it is no Option.
#[derive(Clone, Copy)]
pub struct Sum {
    pub value: f64,
    pub ok: bool,
}

// Row i times the vector v, in the columns from lo up to hi, rising, from plus zero.
pub fn dot(i: usize, lo: usize, hi: usize, a: &[f64; 1024], v: &[f64; 32]) -> Sum
    requires { (i < 32) × (lo ≤ hi) × (hi ≤ 32) }
    ensures { Dot (table a.now i) (vector v.now) lo (hi - lo) result.value result.ok }
{
    let mut sum = 0.0;
    let mut ok = true;
    for j in lo..hi {
        let x = row::get(i, j, a);
        let y = vector::get(j, v);
        let product = x * y;
        let step = rounding::result_in_range(x, y, product);
        ok = ok & step;
        sum = sum + product;
    }
    Sum { value: sum, ok }
}
