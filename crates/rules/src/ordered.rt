// The ordered rule: for each resource the claims of the pieces on come to at most the capacity.
ghost use Rattle.std.specs.Prelude.{ℕ, MatchOption};
ghost use Rattle.tables.specs.Plan.{plan};
ghost use Rattle.figures.specs.Claims.{claim};
ghost use Rattle.rules.specs.Placing.{On};
ghost use Rattle.rules.specs.Ordered.{Ordered, OrderedNames, Lowest};
ghost use Rattle.figures.proofs.Bounds.{claim-le};
ghost use Rattle.rules.specs.Kept.{kept-empty, kept-alone, kept-removal};
ghost use Rattle.rules.specs.Orders.{ordered-fits, ordered-goes};
ghost use Rattle.std.proofs.Common.{rules};

use crate::amounts::{Claimed, within};
use crate::placing::OFF;
use crate::rule::{AdmissionRule, ClearingRule};
use figures::stage::Stage;

#[derive(Drop)]
pub struct OrderedRule;

impl AdmissionRule for OrderedRule {
    ghost allowed = { λ _ t w. Ordered t w };

    ghost formed = { Prim.search rules };

    ghost empty = { λ s t sound. kept-empty t (claim t) (claim-le t sound) };

    ghost alone = { λ s t k p sound. kept-alone t (claim t) (claim-le t sound) k p };

    ghost fits = { λ s t w sound. ordered-fits t sound w };

    ghost removal = { λ s t w k sound h lt. kept-removal t (claim t) (claim-le t sound) w k lt h };

    fn allows(&self, stage: &Stage, placing: &[u16], space: &mut [u16]) -> bool {
        space.fill(0);
        within(&Claimed, stage, placing).is_some()
    }
}

// The piece on with the lowest lowest order, and on a tie the lowest number: the best so far, piece by piece.
fn lowest_piece(stage: &Stage, placing: &[u16; 64]) -> Option<u8>
    ensures { MatchOption result ((k : ℕ) → On placing.now k → ⊥) (λ k. Lowest (plan stage.now.tables) placing.now k) }
{
    let mut best = None;
    for (piece, p) in placing.iter().enumerate() {
        let order = stage.lowest(*p);
        if *p != OFF && best.is_none_or(|(_, lowest)| order < lowest) {
            // below 64
            best = Some((piece as u8, order));
        }
    }
    best.map(|(piece, _)| piece)
}

impl ClearingRule for OrderedRule {
    ghost named = { λ _ t w r. OrderedNames t w r };

    ghost goes = { λ s t w r sound. ordered-goes t sound w r };

    fn name(&self, stage: &Stage, placing: &[u16], space: &mut [u16]) -> Option<u8> {
        space.fill(0);
        lowest_piece(stage, within(&Claimed, stage, placing)?)
    }
}
