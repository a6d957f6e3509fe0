// The shape of a sheet, a sheet as it is lent, and one of which questions 2 and 3 leave something known.

ghost use Rattle.std.specs.Prelude.{◌*◌, ◌<◌, ◌≡◌, length, take, drop};
ghost use Rattle.definitions.specs.Sheet.{place};
ghost use Rattle.definitions.specs.Accuracy.{Binary64};
ghost use Rattle.shape.specs.Square.{Square, WholeSheet};

// What the questions of a sheet's shape look at, wherever its numbers stand: its reading, number of stages and unit, 2^e
// seconds, and how many numbers it has.
#[derive(Clone, Copy)]
pub struct Shape {
    pub reading: usize,
    pub n: usize,
    pub e: i64,
    pub held: usize,
}

// A sheet before any question: the same with its numbers.
#[derive(Clone, Copy)]
pub struct Lent<'a> {
    pub reading: usize,
    pub n: usize,
    pub e: i64,
    pub numbers: &'a [f64],
}

impl Lent<'_> {
    // Its shape, for questions that look at no number.
    pub fn shape(self) -> Shape
        ensures { let sheet = self.entry in result ≡ record { reading = sheet.reading; n = sheet.n; e = sheet.e; held = length sheet.numbers.now } }
    {
        Shape {
            reading: self.reading,
            n: self.n,
            e: self.e,
            held: self.numbers.len(),
        }
    }
}

// At most 32 stages, and at least a number for each pair of them.
#[derive(Clone, Copy)]
pub struct Sheet<'a> {
    pub n: usize,
    pub numbers: &'a [f64],
    pub ghost square: { Square n numbers.now },
}

impl<'a> Sheet<'a> {
    // The number at place (i, j).
    pub fn number_at(self, i: usize, j: usize) -> f64
        requires { (i < self.n) × (j < self.n) }
        ensures { result ≡ place self.entry.n self.entry.numbers.now i j }
    {
        self.numbers[i * self.n + j]
    }

    // The n × n numbers themselves: sizes, and rates or margins.
    pub fn rates(self) -> &'a [f64]
        ensures { result.now ≡ take (self.entry.n * self.entry.n) self.entry.numbers.now }
    {
        let rates = self.n * self.n;
        &self.numbers[..rates]
    }

    // The weights: the numbers behind them, none in readings 1 and 2.
    pub fn weights(self) -> &'a [f64]
        ensures { result.now ≡ drop (self.entry.n * self.entry.n) self.entry.numbers.now }
    {
        let rates = self.n * self.n;
        &self.numbers[rates..]
    }
}

// The whole sheet of a reading: 1 to 32 stages, and as many numbers as the reading has.
#[derive(Clone, Copy)]
pub struct Whole<'a> {
    pub reading: usize,
    pub sheet: Sheet<'a>,
    pub ghost whole: { WholeSheet reading sheet.n sheet.numbers.now },
}

impl<'a> Whole<'a> {
    // The facts of both types from the one that the questions leave. The type of the numbers says that they are binary64,
    // which the accuracy of a table asks for.
    pub fn new(reading: usize, n: usize, numbers: &'a [f64]) -> Whole<'a>
        requires { WholeSheet reading n numbers.now }
        ensures { (result.reading ≡ reading) × (result.sheet.n ≡ n) × (result.sheet.numbers.now ≡ numbers.now) × Binary64 numbers.now }
    {
        let sheet = Sheet { n, numbers };
        Whole { reading, sheet }
    }
}
