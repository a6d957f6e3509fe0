// Questions 6, 7 and 8 of document 01 with the first bad place.
#![tactic(auto)]

ghost use Rattle.std.specs.Prelude.{◌<◌, ◌≡◌, ℕ, Bool, Float};
ghost use Rattle.definitions.specs.Sheet.{sheet_rows, place};
ghost use Rattle.definitions.specs.Questions.{large_enough, question6, question7, question8};
ghost use Rattle.answers.specs.Answers.{number};
ghost use Rattle.answers.specs.Outcome.{ComesTo};
ghost use Rattle.places.specs.PlaceQuestions.{sign_at, search_places, ask_places, at_place, Computes};

use answers::{Question, Refusal};
use shape::sheets::Whole;

// Question 7 of the number x at row i and column j; the weights stand in row n.
fn right_sign(reading: usize, n: usize, i: usize, j: usize, x: f64) -> bool
    ensures { result ≡ sign_at reading n i j x }
{
    if i == n {
        return 0.0 < x;
    }
    if i != j {
        return x <= 0.0;
    }
    if reading == 1 {
        return 0.0 <= x;
    }
    0.0 < x
}

// Question 8 of the number x: 2.2250738585072014e-308 is 2^-1022.
fn is_large_enough(x: f64) -> bool
    ensures { result ≡ large_enough x }
{
    (x == 0.0) | (2.2250738585072014e-308 <= x) | (x <= -2.2250738585072014e-308)
}

// The number at row i and column j, that of the weights included.
fn number_in_row(i: usize, j: usize, whole: Whole<'_>) -> f64
    requires { (i < sheet_rows whole.reading whole.sheet.n) × (j < whole.sheet.n) }
    ensures { result ≡ place whole.entry.sheet.n whole.entry.sheet.numbers.now i j }
{
    let sheet = whole.sheet;
    sheet.numbers[i * sheet.n + j]
}

// The first place whose number does not pass a test, its row and column counted from 1: row by row, that of the weights
// last.
fn search<F: Fn(usize, usize, f64) -> bool>(passes: F, whole: Whole<'_>) -> Option<(usize, usize)>
    requires { F.IsAlwaysCallable passes }
    ensures { let sheet = whole.entry.sheet in (question : ℕ) (good : ℕ → ℕ → Float → Bool) → Computes (F.post passes) good → search_places good question whole.entry.reading sheet.n sheet.numbers.now ≡ at_place question result }
{
    for i in 0..counts::rows(whole.reading, whole.sheet.n) {
        for j in 0..whole.sheet.n {
            let x = number_in_row(i, j, whole);
            if !passes(i, j, x) {
                return Some((i + 1, j + 1));
            }
        }
    }
    None
}

// The first bad place under a question's number, whichever a caller gives: 6, 7, and any other as 8.
pub fn bad_place(question: usize, whole: Whole<'_>) -> Option<(usize, usize)>
    ensures { let sheet = whole.entry.sheet in ask_places question whole.entry.reading sheet.n sheet.numbers.now ≡ at_place question result }
{
    if question == 6 {
        return search(|_, _, x| rounding::is_finite(x), whole);
    }
    if question == 7 {
        return search(
            |i, j, x| right_sign(whole.reading, whole.sheet.n, i, j, x),
            whole,
        );
    }
    search(|_, _, x| is_large_enough(x), whole)
}

// The same as a question's answer.
pub fn ask_places(question: Question, whole: Whole<'_>) -> Result<(), Refusal>
    ensures { let sheet = whole.entry.sheet in ComesTo (ask_places (number question) whole.entry.reading sheet.n sheet.numbers.now) result }
{
    match bad_place(question.into(), whole) {
        Some((row, column)) => Err(Refusal {
            question,
            row,
            column,
        }),
        None => Ok(()),
    }
}

// Question 6 of every place.
pub fn ask_finite(whole: Whole<'_>) -> Result<(), Refusal>
    ensures { ComesTo (question6 whole.entry.reading whole.entry.sheet.n whole.entry.sheet.numbers.now) result }
{
    ask_places(Question::Finite, whole)
}

// Question 7.
pub fn ask_signs(whole: Whole<'_>) -> Result<(), Refusal>
    ensures { ComesTo (question7 whole.entry.reading whole.entry.sheet.n whole.entry.sheet.numbers.now) result }
{
    ask_places(Question::Sign, whole)
}

// Question 8.
pub fn ask_sizes(whole: Whole<'_>) -> Result<(), Refusal>
    ensures { ComesTo (question8 whole.entry.reading whole.entry.sheet.n whole.entry.sheet.numbers.now) result }
{
    ask_places(Question::Size, whole)
}
