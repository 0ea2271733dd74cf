// What is shown of a line.
ghost use Rattle.std.specs.Prelude.{◌≡◌, ◌++◌, Some, codes, decimal};
ghost use Rattle.session.specs.Session.{answer_number};

use history::calls::Answer;
use std::fmt;

// Its answer, and the distance home after it.
#[derive(Clone, Copy)]
pub struct Shown {
    pub answer: Answer,
    pub distance: u16,
}

// 0 for what is granted, else the refusal's number.
fn number_of(answer: Answer) -> u8
    ensures { result ≡ answer_number answer }
{
    match answer {
        Ok(_) => 0,
        Err(refusal) => u8::from(refusal),
    }
}

impl fmt::Display for Shown {
    ghost output = { λ s. Some (decimal (answer_number s.answer) ++ (codes " " ++ decimal s.distance)) };

    fn fmt<W: fmt::Write>(&self, f: &mut fmt::Formatter<W>) -> fmt::Result {
        let Shown { answer, distance } = *self;
        let number = number_of(answer);
        write!(f, "{number} {distance}")
    }
}
