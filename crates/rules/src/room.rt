// The room rule: a placing is allowed when it fits.
ghost use Rattle.rules.specs.Placing.{Roomy};
ghost use Rattle.tables.specs.Plan.{need};
ghost use Rattle.rules.specs.Kept.{kept-empty, kept-alone, kept-removal};
ghost use Rattle.std.proofs.Common.{rules};

use crate::amounts::{Needed, within};
use crate::rule::AdmissionRule;
use figures::stage::Stage;

// A rule of its own beside the ordered one, since each is a value by its name; what they share is `within` and the lemmas of `Kept`.
#[derive(Drop)]
pub struct RoomRule;

impl AdmissionRule for RoomRule {
    ghost allowed = { λ _ t w. Roomy t w };

    ghost formed = { Prim.search rules };

    ghost empty = { λ s t sound. kept-empty t (λ r p. need t p r) (λ r p. sound.room p r) };

    ghost alone = { λ s t k p sound. kept-alone t (λ r p. need t p r) (λ r p. sound.room p r) k p };

    ghost fits = { Prim.search rules };

    ghost removal = { λ s t w k sound h lt. kept-removal t (λ r p. need t p r) (λ r p. sound.room p r) w k lt h };

    fn allows(&self, stage: &Stage, placing: &[u16], space: &mut [u16]) -> bool {
        space.fill(0);
        within(&Needed, stage, placing).is_some()
    }
}
