// The price of a request by the stage at which it enters (document 02, U7): question 19, and the steps, from the
// table of a sheet.
//
// The sums come first and their range tests after them: each addition of a sum waits for the one before it, and
// tests in between would keep the next row from beginning meanwhile.
#![tactic(auto)]

ghost use Rattle.std.specs.Prelude.{◌≤◌, ◌<◌, ◌≡◌, length};
ghost use Rattle.definitions.specs.Numbers.{mul_in_range, all};
ghost use Rattle.definitions.specs.Prices.{unit_price, good_price, question19, request_price, price_in_range};
ghost use Rattle.answers.specs.Outcome.{ComesTo};
ghost use Rattle.tables.specs.RowMajor.{table};
ghost use Rattle.prices.specs.PriceSteps.{Priced, PricesGive};

use answers::{Question, Refusal};
use tables::{row, vector};

// Question 19 of one price: 2.2250738585072014e-308 is 2^-1022.
fn good_price(x: f64) -> bool
    ensures { result ≡ good_price x }
{
    let finite = rounding::is_finite(x);
    let large = (x == 0.0) | (2.2250738585072014e-308 <= x) | (x <= -2.2250738585072014e-308);
    finite & (0.0 <= x) & large
}

// Question 19 of every price: the search stops at the first bad one.
pub fn ask_prices(prices: &[f64]) -> Result<(), Refusal>
    ensures { ComesTo (question19 (length prices.now) prices.now) result }
{
    for (j, price) in prices.iter().enumerate() {
        if !good_price(*price) {
            return Err(Refusal {
                question: Question::Price,
                row: j + 1,
                column: 0,
            });
        }
    }
    Ok(())
}

// The price of a request that enters at stage i: row i of the table times the prices, rising, from plus zero.
fn price(n: usize, i: usize, x: &[f64; 1024], prices: &[f64]) -> f64
    requires { (n ≤ 32) × (length prices.now ≡ n) × (i < 32) }
    ensures { result ≡ request_price n (table x.now) (unit_price prices.now) i }
{
    let mut sum = 0.0;
    for j in 0..n {
        let entry = row::get(i, j, x);
        sum = sum + entry * prices[j];
    }
    sum
}

fn fill(n: usize, x: &[f64; 1024], prices: &[f64], p: &mut [f64; 32])
    requires { (n ≤ 32) × (length prices.now ≡ n) }
    ensures { Priced n (table x.now) (unit_price prices.now) p.new }
{
    for i in 0..n {
        let sum = price(n, i, x, prices);
        vector::put(i, sum, p);
    }
}

// Whether the products of stage i are in range.
fn products_in_range(n: usize, i: usize, x: &[f64; 1024], prices: &[f64]) -> bool
    requires { (n ≤ 32) × (length prices.now ≡ n) × (i < 32) }
    ensures { let f = table x.now in let c = unit_price prices.now in result ≡ all (λ j. mul_in_range (f i j) (c j)) 0 n }
{
    let mut ok = true;
    for j in 0..n {
        let entry = row::get(i, j, x);
        let unit = prices[j];
        let step = rounding::result_in_range(entry, unit, entry * unit);
        ok = ok & step;
    }
    ok
}

// Whether the steps of the prices p are in range. A finite sum has every addition in range.
fn in_range(n: usize, x: &[f64; 1024], prices: &[f64], p: &[f64; 32]) -> bool
    requires { (n ≤ 32) × (length prices.now ≡ n) × Priced n (table x.now) (unit_price prices.now) p.now }
    ensures { result ≡ all (price_in_range n (table x.now) (unit_price prices.now)) 0 n }
{
    let mut ok = true;
    for i in 0..n {
        let products = products_in_range(n, i, x, prices);
        let finite = rounding::is_finite(vector::get(i, p));
        ok = ok & (products & finite);
    }
    ok
}

// The price of a request by its stage, for all n stages in p, from the table x; true if the steps are in range.
pub fn request_prices(n: usize, x: &[f64; 1024], prices: &[f64], p: &mut [f64; 32]) -> bool
    requires { (n ≤ 32) × (length prices.now ≡ n) }
    ensures { PricesGive n (table x.now) (unit_price prices.now) result p.new }
{
    fill(n, x, prices, p);
    in_range(n, x, prices, p)
}
