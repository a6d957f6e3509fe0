// Question 9: the lowest stage that no chain of moves leads out of and that is not idle (documents 01 and 02, U3).
// The stages that get out are marked backwards from the exits. An idle stage is not trapped (document 02, U3).
#![tactic(auto)]

ghost use Rattle.std.specs.Prelude.{◌≤◌, false, ◌||◌, get_or};
ghost use Rattle.definitions.specs.Sheet.{idle};
ghost use Rattle.definitions.specs.Questions.{question9, gets_out, ask_stages};
ghost use Rattle.answers.specs.Outcome.{ComesTo};
ghost use Rattle.marks.specs.Marks.{is_marked, Marked};
ghost use Rattle.trapped.specs.NextStage.{NextStage};

use answers::{Question, Refusal};
use marks::Marks;
use shape::sheets::Sheet;

// The first marked stage that is not done.
fn next_stage(n: usize, marks: Marks, done: &[bool; 32]) -> Option<usize>
    requires { n ≤ 32 }
    ensures { NextStage (is_marked marks) (λ i. get_or done.now i false) n result }
{
    for i in 0..n {
        if marks.marked[i] & !done[i] {
            return Some(i);
        }
    }
    None
}

// The stages that get out. A stage is done once all that move to it are marked, so there are at most n turns.
fn reach(sheet: Sheet<'_>) -> Marks
    ensures { Marked (gets_out sheet.entry.n sheet.entry.numbers.now) sheet.entry.n result }
{
    let mut marks = marks::exits(sheet);
    let mut done = [false; 32];
    loop {
        if marks.count == sheet.n {
            return marks;
        }
        let Some(j) = next_stage(sheet.n, marks, &done) else {
            return marks;
        };
        marks = marks::mark_movers(j, sheet, marks);
        done[j] = true;
    }
}

// Refuses the lowest stage that is neither marked nor idle.
fn ask_marked(sheet: Sheet<'_>, marks: Marks) -> Result<(), Refusal>
    ensures { ComesTo (ask_stages (λ i. idle sheet.entry.n sheet.entry.numbers.now i || is_marked marks i) 9 0 sheet.entry.n) result }
{
    for i in 0..sheet.n {
        if !marks.marked[i] && !idle::is_idle(i, sheet) {
            return Err(Refusal {
                question: Question::WayOut,
                row: i + 1,
                column: 0,
            });
        }
    }
    Ok(())
}

// Question 9. That it names the lowest stage that is trapped and not idle is a theorem (specs/Trapped.antt in
// crates/steps).
pub fn ask_trapped(reading: usize, sheet: Sheet<'_>) -> Result<(), Refusal>
    ensures { ComesTo (question9 reading sheet.entry.n sheet.entry.numbers.now) result }
{
    if reading != 1 {
        return Ok(());
    }
    let marks = reach(sheet);
    if marks.count == sheet.n {
        return Ok(());
    }
    ask_marked(sheet, marks)
}
