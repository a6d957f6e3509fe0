// What the questions of a call come to, and what the services answer (document 01, "Which form goes where"):
// what was asked for, or a refusal with its question, row and column. specs/Answers.antt gives the document's
// answer for each case.
#![tactic(auto)]

ghost use Rattle.std.specs.Prelude.{◌≡◌};
ghost use Rattle.answers.specs.Answers.{number, of_call};

// The questions of a call, in the order of their numbers.
#[derive(Clone, Copy, Debug, PartialEq, Eq)]
pub enum Question {
    Reading,
    Stages,
    Length,
    Room,
    StageAsked,
    Finite,
    Sign,
    Size,
    WayOut,
    InRange,
    WholeRecord,
    Head,
    RecordDue,
    FileEnds,
    Exponent,
    RoomToMove,
    MovedUnit,
    PriceCount,
    Price,
}

// The number by which the documents name a question.
impl From<Question> for usize {
    ghost from_gives = { λ question n. n ≡ number question };

    fn from(question: Question) -> usize {
        match question {
            Question::Reading => 1,
            Question::Stages => 2,
            Question::Length => 3,
            Question::Room => 4,
            Question::StageAsked => 5,
            Question::Finite => 6,
            Question::Sign => 7,
            Question::Size => 8,
            Question::WayOut => 9,
            Question::InRange => 10,
            Question::WholeRecord => 11,
            Question::Head => 12,
            Question::RecordDue => 13,
            Question::FileEnds => 14,
            Question::Exponent => 15,
            Question::RoomToMove => 16,
            Question::MovedUnit => 17,
            Question::PriceCount => 18,
            Question::Price => 19,
        }
    }
}

// The first question that is answered no, with the row and the column of the first bad place, 0 where there is none.
#[derive(Clone, Copy, Debug, PartialEq, Eq)]
pub struct Refusal {
    pub question: Question,
    pub row: usize,
    pub column: usize,
}

// A question of the whole call has no row and no column.
impl From<Question> for Refusal {
    ghost from_gives = { λ question refusal. refusal ≡ of_call question };

    fn from(question: Question) -> Refusal {
        Refusal {
            question,
            row: 0,
            column: 0,
        }
    }
}

// What a sheet file says of its sheet: the reading, the number of stages, and e, the unit being 2^e seconds.
#[derive(Clone, Copy, Debug, PartialEq, Eq)]
pub struct Head {
    pub reading: usize,
    pub n: usize,
    pub e: i64,
}
