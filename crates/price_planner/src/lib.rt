// The service for prices (document 02, U7): the price of a request by the stage at which it enters. It has no
// `requires`: its questions are asked in order, and a no ends the call with no place changed.
#![tactic(auto)]

ghost use Rattle.std.specs.Prelude.{◌≡◌, length};
ghost use Rattle.definitions.specs.Questions.{◌then◌, pass};
ghost use Rattle.definitions.specs.Prices.{question19, price_input};
ghost use Rattle.answers.specs.Outcome.{ComesTo};
ghost use Rattle.price_planner.specs.Promises.{PriceStepped, PricesDone};

use answers::{Question, Refusal};
use shape::sheets::{Lent, Whole};

// The questions that come before the steps.
fn ask(sheet: Lent<'_>, prices: &[f64], room: usize) -> Result<(), Refusal>
    ensures { let sheet = sheet.entry in let given = prices.now in ComesTo (price_input sheet.reading sheet.n sheet.e sheet.numbers.now (length given) room then question19 sheet.n given) result }
{
    sheet::price_input(sheet, prices.len(), room)?;
    prices::ask_prices(prices)
}

// The prices of all stages, in p, from the table, which stands in an array of this function's own; true if every step
// of both is in range. Where one is not, p is left open.
fn steps(whole: Whole<'_>, prices: &[f64], p: &mut [f64; 32]) -> bool
    requires { length prices.now ≡ whole.sheet.n }
    ensures { PriceStepped whole.entry.reading whole.entry.sheet.n whole.entry.sheet.numbers.now prices.now result p.new }
{
    let mut x = [0.0; 1024];
    if !readings::steps(whole, &mut x) {
        return false;
    }
    prices::request_prices(whole.sheet.n, &x, prices, p)
}

// The prices of a sheet that passed the questions before 10. Nothing is written before question 10 passes too.
fn prices_of_sheet(sheet: Lent<'_>, prices: &[f64], answer: &mut [f64]) -> Result<usize, Refusal>
    requires { (price_input sheet.reading sheet.n sheet.e sheet.numbers.now (length prices.now) (length answer.old) then question19 sheet.n prices.now) ≡ pass }
    ensures { PricesDone sheet.entry.reading sheet.entry.n sheet.entry.e sheet.entry.numbers.now prices.now prices.now answer.old answer.new result }
{
    let mut p = [0.0; 32];
    let whole = Whole::new(sheet.reading, sheet.n, sheet.numbers);
    if !steps(whole, prices, &mut p) {
        return Err(Question::InRange.into());
    }
    writing::write_column(sheet.n, &p, answer);
    Ok(allowance::allowance_of_prices(sheet.reading, sheet.n))
}

// The price of a request that enters at each stage, in the first n places of the answer area, from the prices per
// unit of time.
pub fn request_prices(sheet: Lent<'_>, prices: &[f64], answer: &mut [f64]) -> Result<usize, Refusal>
    ensures { PricesDone sheet.entry.reading sheet.entry.n sheet.entry.e sheet.entry.numbers.now prices.now prices.now answer.old answer.new result }
{
    ask(sheet, prices, answer.len())?;
    prices_of_sheet(sheet, prices, answer)
}
