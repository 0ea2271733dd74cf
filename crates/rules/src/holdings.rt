// What the pieces on hold.
ghost use Rattle.std.specs.Prelude.{◌≡◌};
ghost use Rattle.tables.specs.Plan.{plan};
ghost use Rattle.rules.specs.Placing.{held};

use crate::amounts::{Needed, total};
use figures::stage::Stage;

// How much of a resource the pieces of a placing hold.
pub fn held(stage: &Stage, resource: usize, placing: &[u16; 64]) -> u32
    ensures { result ≡ held (plan stage.now.tables) resource placing.now }
{
    total(&Needed, stage, resource, placing)
}
