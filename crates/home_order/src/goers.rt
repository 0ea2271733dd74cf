// Who can go home first, and whether all can go. Placing and sums stand apart: whoever takes pieces off changes both.
ghost use Rattle.std.specs.Prelude.{◌≡◌, ℕ, Decides, MatchOption};
ghost use Rattle.tables.specs.Plan.{plan};
ghost use Rattle.rules.specs.Placing.{On, Formed, Fits};
ghost use Rattle.home_order.specs.HomeOrder.{HasOrder, HomeOrder, HomeOrderNames};
ghost use Rattle.home_order.specs.Sums.{SumsOf};
ghost use Rattle.home_order.specs.Goers.{Stuck, Goer};

use crate::sums::{peaks_fit, sums_of, take_off};
use figures::stage::Stage;
use rules::placing::OFF;

// The lowest-numbered piece that can go its whole way home, the others standing still. A piece is below 64, so its number fits a byte.
pub(crate) fn first_to_go(stage: &Stage, placing: &[u16; 64], sums: &[u32; 16]) -> Option<u8>
    requires formed { Formed (plan stage.now.tables) placing.now }
    requires sums { SumsOf (plan stage.now.tables) placing.now sums.now }
    ensures { let t = plan stage.now.tables in MatchOption result (Stuck (Fits t) t placing.now) (λ k. Goer (Fits t) t placing.now k) }
{
    placing
        .iter()
        .position(|p| *p != OFF && peaks_fit(stage, sums, *p))
        .map(|k| k as u8)
}

fn nobody_on(placing: &[u16]) -> bool
    ensures { Decides result ((k : ℕ) → On placing.now k → ⊥) }
{
    placing.iter().all(|p| *p == OFF)
}

// Takes pieces off as long as one can go home, and says whether nobody is left.
pub(crate) fn all_go_home(stage: &Stage, rest: &mut [u16; 64]) -> bool
    requires { Formed (plan stage.now.tables) rest.old }
    ensures { let t = plan stage.now.tables in Decides result (HasOrder (Fits t) t rest.old) }
{
    let mut sums = sums_of(stage, rest);
    while let Some(k) = first_to_go(stage, rest, &sums) {
        let piece = usize::from(k);
        take_off(stage, &mut sums, rest[piece]);
        rest[piece] = OFF;
    }
    nobody_on(rest)
}

// Of a placing whose pieces can all go home, the lowest-numbered piece that can go first.
pub(crate) fn first_home(stage: &Stage, placing: &[u16; 64]) -> Option<u8>
    requires { HomeOrder (plan stage.now.tables) placing.now }
    ensures { HomeOrderNames (plan stage.now.tables) placing.now result }
{
    first_to_go(stage, placing, &sums_of(stage, placing))
}
