// The placings that a call asks for.
ghost use Rattle.std.specs.Prelude.{◌≡◌, ◌<◌, Some, None, MatchResult, slice_set};
ghost use Rattle.refusals.specs.declared.Refusal.TheVariants.{StageEmpty, NoRoom};
ghost use Rattle.tables.specs.Plan.{plan};
ghost use Rattle.rules.specs.Placing.{On, Formed};

use crate::console::Console;
use refusals::Refusal;
use rules::rule::{AdmissionRule, ClearingRule};

impl<R: AdmissionRule> Console<R> {
    // The placing with piece k at p, if the rule allows it.
    pub(crate) fn admitted(&self, k: usize, p: u16) -> Result<[u16; 64], Refusal>
        requires { k < 64 }
        ensures { let t = plan self.now.stage.tables in MatchResult result (λ after. (after ≡ slice_set self.now.placing k p) × R.AdmissionRule.allowed self.now.rule t (slice_set self.now.placing k p) × Formed t after) (λ e. (R.AdmissionRule.allowed self.now.rule t (slice_set self.now.placing k p) → ⊥) × (e ≡ NoRoom)) }
    {
        let mut after = self.placing;
        after[k] = p;
        let mut space = [0u16; 64];
        if !self.rule.allows(&self.stage, &after, &mut space) {
            return Err(Refusal::NoRoom);
        }
        Ok(after)
    }
}

impl<R: ClearingRule> Console<R> {
    // The piece that the rule names to go.
    pub(crate) fn named(&self) -> Result<u8, Refusal>
        ensures { let t = plan self.now.stage.tables in MatchResult result (λ k. R.ClearingRule.named self.now.rule t self.now.placing (Some k) × On self.now.placing k) (λ e. R.ClearingRule.named self.now.rule t self.now.placing None × (e ≡ StageEmpty)) }
    {
        let mut space = [0u16; 64];
        self.rule
            .name(&self.stage, &self.placing, &mut space)
            .ok_or(Refusal::StageEmpty)
    }
}
