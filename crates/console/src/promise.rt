// Any of the four calls, with the promise over every history. What is said of histories is said of any plan, any set of allowed placings and any naming, so the clauses hand it these three of a rule.
ghost use Rattle.std.specs.Prelude.{◌≡◌, []};
ghost use Rattle.tables.specs.Plan.{plan};
ghost use Rattle.history.specs.Calls.{Answers, after};
ghost use Rattle.history.specs.History.{Kept, Stands, Promised};
ghost use Rattle.history.specs.Points.{Points};
ghost use Rattle.console.specs.House.{SameHouse};

use crate::console::Console;
use figures::stage::Stage;
use history::calls::{Answer, Call};
use rules::rule::ClearingRule;

// States that a rule keeps its points on a stage, and does nothing.
fn points<R: ClearingRule>(rule: &R, stage: &Stage)
    ensures { let t = plan stage.now.tables in Points t (R.AdmissionRule.allowed rule.now t) (R.ClearingRule.named rule.now t) }
{}

// States that the empty history keeps the promise of a rule on a stage, and does nothing.
fn beginning<R: ClearingRule>(rule: &R, stage: &Stage)
    ensures { let t = plan stage.now.tables in Kept t (R.AdmissionRule.allowed rule.now t) (R.ClearingRule.named rule.now t) [] }
{
    points(rule, stage);
}

impl<R: ClearingRule> Console<R> {
    // Makes a call: apart from `call`, so that the promise is shown once for all four. What a call carries goes by its kind, so its kind picks the method.
    fn make(&mut self, call: Call) -> Answer
        ensures house { SameHouse self.old self.new }
        ensures answer { let t = plan self.old.stage.tables in Answers t (R.AdmissionRule.allowed self.old.rule t) (R.ClearingRule.named self.old.rule t) self.old.placing call result }
        ensures placing { self.new.placing ≡ after (plan self.old.stage.tables) self.old.placing call result }
    {
        match call {
            Call::Start(piece, route) => self.start(piece, route),
            Call::Move(piece, position) => self.advance(piece, position),
            Call::Leave(piece) => self.leave(piece),
            Call::Clear => self.clear(),
        }
    }

    // Makes a call. Whatever history stands at the console before it, with this call and its answer stands at the console after it, and keeps the promise.
    pub fn call(&mut self, call: Call) -> Answer
        ensures house { SameHouse self.old self.new }
        ensures answer { let t = plan self.old.stage.tables in Answers t (R.AdmissionRule.allowed self.old.rule t) (R.ClearingRule.named self.old.rule t) self.old.placing call result }
        ensures placing { self.new.placing ≡ after (plan self.old.stage.tables) self.old.placing call result }
        ensures promise { let t = plan self.old.stage.tables in Promised t (R.AdmissionRule.allowed self.old.rule t) (R.ClearingRule.named self.old.rule t) self.old.placing call result self.new.placing }
    {
        points(&self.rule, &self.stage);
        self.make(call)
    }

    // A console with all pieces off, at the beginning of an evening: the empty history stands there, and keeps the promise.
    pub fn begin(stage: Stage, rule: R) -> Console<R>
        ensures stage { result.stage ≡ stage }
        ensures rule { result.rule ≡ rule }
        ensures stands { let t = plan stage.tables in Stands t (R.AdmissionRule.allowed rule t) (R.ClearingRule.named rule t) [] result.placing }
        ensures promise { let t = plan stage.tables in Kept t (R.AdmissionRule.allowed rule t) (R.ClearingRule.named rule t) [] }
    {
        beginning(&rule, &stage);
        Console::open(stage, rule)
    }
}
