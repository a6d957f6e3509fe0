// Places of a working table, and rows of zeros.
ghost use Rattle.std.specs.Prelude.{◌≡◌, ◌≤◌, ◌<◌};
ghost use Rattle.definitions.specs.Numbers.{0·0};
ghost use Rattle.tables.specs.RowMajor.{table, Holds};
ghost use Rattle.tables.specs.Operators.{put, span};

// The number at place (i, j).
pub fn get(i: usize, j: usize, a: &[f64; 1024]) -> f64
    requires { (i < 32) × (j < 32) }
    ensures { result ≡ table a.now i j }
{
    a[i * 32 + j]
}

// Place (i, j) becomes x.
pub fn put(i: usize, j: usize, x: f64, a: &mut [f64; 1024])
    requires { (i < 32) × (j < 32) }
    ensures { Holds a.new (put i j x (table a.old)) }
{
    a[i * 32 + j] = x;
}

// The first r numbers of row i become zero.
pub fn clear(i: usize, r: usize, a: &mut [f64; 1024])
    requires { (i < 32) × (r ≤ 32) }
    ensures { Holds a.new (span i 0 r (λ _. 0·0) (table a.old)) }
{
    for j in 0..r {
        put(i, j, 0.0, a);
    }
}
