// The calls, each with its checks in their order. A refusal leaves all of the console as it was. A piece's number of 32 bits, once it is known to be below 64, is its place as it is.
ghost use Rattle.std.specs.Prelude.{◌≡◌};
ghost use Rattle.tables.specs.Plan.{plan};
ghost use Rattle.history.specs.declared.calls.Call.TheVariants.{Start, Move, Leave, Clear};
ghost use Rattle.history.specs.Calls.{StartAnswers, MoveAnswers, LeaveAnswers, ClearAnswers, after};
ghost use Rattle.console.specs.House.{SameHouse};

use crate::console::Console;
use crate::shows::{first_of, is_last, next_of, step_from};
use history::calls::{Answer, Granted};
use refusals::Refusal;
use rules::placing::OFF;
use rules::rule::{AdmissionRule, ClearingRule};

impl<R: AdmissionRule> Console<R> {
    // Puts a piece at its route's first position.
    pub fn start(&mut self, piece: u32, route: u32) -> Answer
        ensures house { SameHouse self.old self.new }
        ensures answer { let t = plan self.old.stage.tables in StartAnswers t (R.AdmissionRule.allowed self.old.rule t) self.old.placing piece route result }
        ensures placing { self.new.placing ≡ after (plan self.old.stage.tables) self.old.placing (Start piece route) result }
    {
        let p = self.whereabouts(piece)?;
        let first = first_of(&self.stage.tables, route).ok_or(Refusal::NoSuchRoute)?;
        if p != OFF {
            return Err(Refusal::AlreadyOn);
        }
        self.placing = self.admitted(piece as usize, first)?;
        Ok(Granted::Moved)
    }

    // Takes a piece to one of its next positions.
    pub fn advance(&mut self, piece: u32, position: u32) -> Answer
        ensures house { SameHouse self.old self.new }
        ensures answer { let t = plan self.old.stage.tables in MoveAnswers t (R.AdmissionRule.allowed self.old.rule t) self.old.placing piece position result }
        ensures placing { self.new.placing ≡ after (plan self.old.stage.tables) self.old.placing (Move piece position) result }
    {
        let p = self.whereabouts(piece)?;
        if p == OFF {
            return Err(Refusal::NotOn);
        }
        let next = next_of(&self.stage.tables, p, position).ok_or(Refusal::NotNext)?;
        self.placing = self.admitted(piece as usize, next)?;
        Ok(Granted::Moved)
    }

    // Takes a piece off its last position.
    pub fn leave(&mut self, piece: u32) -> Answer
        ensures house { SameHouse self.old self.new }
        ensures answer { LeaveAnswers (plan self.old.stage.tables) self.old.placing piece result }
        ensures placing { self.new.placing ≡ after (plan self.old.stage.tables) self.old.placing (Leave piece) result }
    {
        let p = self.whereabouts(piece)?;
        if p == OFF {
            return Err(Refusal::NotOn);
        }
        if !is_last(&self.stage.tables, p) {
            return Err(Refusal::NotLast);
        }
        self.placing[piece as usize] = OFF;
        Ok(Granted::Moved)
    }
}

impl<R: ClearingRule> Console<R> {
    // Takes the piece that the rule names a step home.
    pub fn clear(&mut self) -> Answer
        ensures house { SameHouse self.old self.new }
        ensures answer { ClearAnswers (R.ClearingRule.named self.old.rule (plan self.old.stage.tables)) self.old.placing result }
        ensures placing { self.new.placing ≡ after (plan self.old.stage.tables) self.old.placing Clear result }
    {
        let piece = self.named()?;
        let k = usize::from(piece);
        self.placing[k] = step_from(&self.stage.tables, self.placing[k]);
        Ok(Granted::Cleared(piece))
    }
}
