// The home-order rule: a placing is allowed when its pieces can go home one after another.
#![tactic(auto)]

ghost use Rattle.home_order.specs.HomeOrder.{HomeOrder, HomeOrderNames};
ghost use Rattle.home_order.specs.Points.{home-empty, home-alone, home-removal, home-goes};
ghost use Rattle.std.proofs.Common.{rules};

mod goers;
mod sums;

use figures::stage::Stage;
use goers::{all_go_home, first_home};
use rules::room::RoomRule;
use rules::rule::{AdmissionRule, ClearingRule};

#[derive(Drop)]
pub struct HomeOrderRule;

impl AdmissionRule for HomeOrderRule {
    ghost allowed = { λ _ t w. HomeOrder t w };

    ghost formed = { Prim.search rules };

    ghost empty = { λ s t sound. home-empty t sound };

    ghost alone = { λ s t k p sound. home-alone t sound k p };

    ghost fits = { Prim.search rules };

    ghost removal = { λ s t w k sound h lt. home-removal t sound w k lt h };

    fn allows(&self, stage: &Stage, placing: &[u16], space: &mut [u16]) -> bool {
        if !RoomRule.allows(stage, placing, space) {
            return false;
        }
        space.copy_from_slice(placing);
        // a match, since a closure would have to ask what `all_go_home` asks
        let allowed = match space.first_chunk_mut::<64>() {
            Some(rest) => all_go_home(stage, rest),
            None => false,
        };
        space.fill(0);
        allowed
    }
}

impl ClearingRule for HomeOrderRule {
    ghost named = { λ _ t w r. HomeOrderNames t w r };

    ghost goes = { λ s t w r sound. home-goes t sound w r };

    fn name(&self, stage: &Stage, placing: &[u16], space: &mut [u16]) -> Option<u8> {
        if !self.allows(stage, placing, space) {
            return None;
        }
        first_home(stage, placing.as_array::<64>()?)
    }
}
