// A clearing rule of another house: one piece at a time.
#![tactic(auto)]

ghost use Rattle.std.specs.Prelude.{◌≡◌, ℕ, MatchOption};
ghost use Rattle.tables.specs.Plan.{plan};
ghost use Rattle.rules.specs.Placing.{On};
ghost use Rattle.solo.specs.Solo.{Solo, SoloNames};
ghost use Rattle.solo.specs.Points.{solo-empty, solo-alone, solo-fits, solo-removal, solo-goes};
ghost use Rattle.std.proofs.Common.{rules};

use figures::stage::Stage;
use rules::placing::{OFF, formed, pieces_on};
use rules::rule::{AdmissionRule, ClearingRule};

#[derive(Drop)]
pub struct SoloRule;

impl AdmissionRule for SoloRule {
    ghost allowed = { λ _ t w. Solo t w };

    ghost formed = { Prim.search rules };

    ghost empty = { λ s t sound. solo-empty t };

    ghost alone = { λ s t k p sound. solo-alone t k p };

    ghost fits = { λ s t w sound. solo-fits t sound w };

    ghost removal = { λ s t w k sound h lt. solo-removal t w k lt h };

    fn allows(&self, stage: &Stage, placing: &[u16], space: &mut [u16]) -> bool {
        space.fill(0);
        alone(stage, placing).is_some()
    }
}

// The placing that a list is, if it is one with at most one piece on.
fn alone<'a>(stage: &Stage, numbers: &'a [u16]) -> Option<&'a [u16; 64]>
    ensures { MatchOption result (Solo (plan stage.now.tables) numbers.entry.now → ⊥) (λ w. (w.now ≡ numbers.entry.now) × Solo (plan stage.now.tables) numbers.entry.now) }
{
    formed(&stage.tables, numbers).filter(|placing| pieces_on(*placing) <= 1)
}

// The first piece on. A piece is below 64, so its number fits a byte.
fn first_on(placing: &[u16; 64]) -> Option<u8>
    ensures { MatchOption result ((k : ℕ) → On placing.now k → ⊥) (λ k. On placing.now k) }
{
    placing.iter().position(|p| *p != OFF).map(|k| k as u8)
}

impl ClearingRule for SoloRule {
    ghost named = { λ _ t w r. SoloNames t w r };

    ghost goes = { λ s t w r sound. solo-goes t sound w r };

    fn name(&self, stage: &Stage, placing: &[u16], space: &mut [u16]) -> Option<u8> {
        space.fill(0);
        first_on(alone(stage, placing)?)
    }
}
