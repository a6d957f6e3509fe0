// Places of a working vector, one number for each stage.
ghost use Rattle.std.specs.Prelude.{◌≡◌, ◌<◌};
ghost use Rattle.tables.specs.Operators.{replace};
ghost use Rattle.tables.specs.Vectors.{vector, VectorHolds};

pub fn get(i: usize, v: &[f64; 32]) -> f64
    requires { i < 32 }
    ensures { result ≡ vector v.now i }
{
    v[i]
}

// Place i becomes x.
pub fn put(i: usize, x: f64, v: &mut [f64; 32])
    requires { i < 32 }
    ensures { VectorHolds v.new (replace i x (vector v.old)) }
{
    v[i] = x;
}
