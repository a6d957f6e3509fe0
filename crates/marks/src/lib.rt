// Marked stages beside their count, for question 9 of document 01: the stages with an exit, and those that
// move to a stage.
#![tactic(auto)]

ghost use Rattle.std.specs.Prelude.{◌<◌, ◌||◌};
ghost use Rattle.definitions.specs.Questions.{moves, leaves};
ghost use Rattle.marks.specs.Marks.{is_marked, Marked, Counted};

use shape::sheets::Sheet;

#[derive(Clone, Copy)]
pub struct Marks {
    pub marked: [bool; 32],
    pub count: usize,
}

// The stages with an exit: their leaving rate is positive, and the sum makes either zero plus zero.
pub fn exits(sheet: Sheet<'_>) -> Marks
    ensures { Marked (leaves sheet.entry.n sheet.entry.numbers.now) sheet.entry.n result }
{
    let mut next = Marks {
        marked: [false; 32],
        count: 0,
    };
    for i in 0..sheet.n {
        if 0.0 < sheet.number_at(i, i) + 0.0 {
            next.marked[i] = true;
            next.count += 1;
        }
    }
    next
}

// The marked stages, and those with a move to stage j: the size of a move is 0.0 minus its number.
pub fn mark_movers(j: usize, sheet: Sheet<'_>, marks: Marks) -> Marks
    requires { (j < sheet.n) × Counted sheet.n marks }
    ensures { Marked (λ i. is_marked marks i || moves sheet.entry.n sheet.entry.numbers.now i j) sheet.entry.n result }
{
    let mut next = marks;
    for i in 0..sheet.n {
        if !next.marked[i] && ((i != j) & (0.0 - sheet.number_at(i, j) != 0.0)) {
            next.marked[i] = true;
            next.count += 1;
        }
    }
    next
}
