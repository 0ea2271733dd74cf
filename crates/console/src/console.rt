// A console over a rule.
ghost use Rattle.std.specs.Prelude.{◌≡◌};
ghost use Rattle.tables.specs.Plan.{plan};
ghost use Rattle.rules.specs.Placing.{Formed, nobody};

use figures::stage::Stage;
use rules::placing::OFF;

#[derive(Drop)]
pub struct Console<R> {
    pub stage: Stage,
    pub rule: R,
    pub placing: [u16; 64],
    ghost formed: { Formed (plan stage.tables) placing },
}

impl<R> Console<R> {
    // A console with all pieces off.
    pub fn open(stage: Stage, rule: R) -> Console<R>
        ensures stage { result.stage ≡ stage }
        ensures rule { result.rule ≡ rule }
        ensures empty { result.placing ≡ nobody }
    {
        Console {
            stage,
            rule,
            placing: [OFF; 64],
        }
    }
}
