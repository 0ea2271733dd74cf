// The answer to a line.
ghost use Rattle.std.specs.Prelude.{◌≡◌, ℕ, List};
ghost use Rattle.tables.specs.Plan.{plan};
ghost use Rattle.lines.specs.Front.{Holds};
ghost use Rattle.session.specs.Session.{Answered, LineAnswered};

use crate::shown::Shown;
use console::console::Console;
use history::calls::Answer;
use lines::pending::Pending;
use net::ordered_call;
use refusals::Refusal;
use rules::ordered::OrderedRule;

// Makes the call that a line says, if it says one. There is one value of the ordered rule, so that only the stage is said to stay.
fn answer_to(console: &mut Console<OrderedRule>, line: &Pending) -> Answer
    ensures stage { console.new.stage ≡ console.old.stage }
    ensures answered { (text : List ℕ) → Holds line.now text → Answered (plan console.old.stage.tables) console.old.placing text result console.new.placing }
{
    // a match, since what no call says of the line is not seen through `ok_or`
    match line.call() {
        Some(call) => ordered_call(console, call),
        None => Err(Refusal::LineNotUnderstood),
    }
}

// Makes the call that a line says, and gives what is shown of it.
pub fn answer_line(console: &mut Console<OrderedRule>, line: &Pending) -> Shown
    ensures stage { console.new.stage ≡ console.old.stage }
    ensures answered { (text : List ℕ) → Holds line.now text → LineAnswered (plan console.old.stage.tables) console.old.placing text result console.new.placing }
{
    let answer = answer_to(console, line);
    let (_, distance) = console.home();
    Shown { answer, distance }
}
