// Calls under the ordered rule, which grants exactly what the controlled net enables.
#![tactic(auto)]

ghost use Rattle.std.specs.Prelude.{◌≡◌};
ghost use Rattle.tables.specs.Plan.{plan};
ghost use Rattle.net.specs.Net.{OrderedCall};

use console::console::Console;
use history::calls::{Answer, Call};
use rules::ordered::OrderedRule;

// Makes a call under the ordered rule, of which there is one value, so that only the stage is said to stay.
pub fn ordered_call(console: &mut Console<OrderedRule>, call: Call) -> Answer
    ensures stage { console.new.stage ≡ console.old.stage }
    ensures call { OrderedCall (plan console.old.stage.tables) console.old.placing call result console.new.placing }
{
    console.call(call)
}
