// The allowance E of a table (document 01, "The sheet and its two readings"; document 02, U10), and of prices (U7).
#![tactic(auto)]

ghost use Rattle.std.specs.Prelude.{◌≡◌, ◌≤◌};
ghost use Rattle.definitions.specs.Sheet.{allowance};
ghost use Rattle.definitions.specs.Prices.{price_allowance};

// 4n³ for reading 1, 12n³ for reading 2, 6n³ for reading 3.
pub fn allowance_of(reading: usize, n: usize) -> usize
    requires { n ≤ 32 }
    ensures { result ≡ allowance reading n }
{
    let cube = n * n * n;
    if reading == 1 {
        return 4 * cube;
    }
    if reading == 2 {
        return 12 * cube;
    }
    6 * cube
}

// That of prices: n more.
pub fn allowance_of_prices(reading: usize, n: usize) -> usize
    requires { n ≤ 32 }
    ensures { result ≡ price_allowance reading n }
{
    allowance_of(reading, n) + n
}
