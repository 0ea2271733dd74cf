// The either rule: what one of two rules allows.
ghost use Rattle.rules.specs.Either.{Either, EitherNames};
ghost use Rattle.std.proofs.Common.{⊎_elim, inl, inr, rules};
ghost use Rattle.rules.specs.Eithers.{names-first, names-second};

use crate::rule::{AdmissionRule, ClearingRule};
use figures::stage::Stage;

#[derive(Drop)]
pub struct EitherRule<A, B> {
    pub first: A,
    pub second: B,
}

impl<A: AdmissionRule, B: AdmissionRule> AdmissionRule for EitherRule<A, B> {
    ghost allowed = { λ s t w. Either (A.AdmissionRule.allowed s.first t) (B.AdmissionRule.allowed s.second t) w };

    ghost formed = { λ s t w sound h. ⊎_elim (A.AdmissionRule.formed s.first t w sound) (B.AdmissionRule.formed s.second t w sound) h };

    ghost empty = { Prim.search rules };

    ghost alone = { Prim.search rules };

    ghost fits = { Prim.search rules };

    ghost removal = { λ s t w k sound h lt.
        ⊎_elim
        (λ a. inl (A.AdmissionRule.removal s.first t w k sound a lt))
        (λ b. inr (B.AdmissionRule.removal s.second t w k sound b lt))
        h };

    fn allows(&self, stage: &Stage, placing: &[u16], space: &mut [u16]) -> bool {
        self.first.allows(stage, placing, space) || self.second.allows(stage, placing, space)
    }
}

impl<A: ClearingRule, B: ClearingRule> ClearingRule for EitherRule<A, B> {
    ghost named = { λ s t w r. EitherNames (A.AdmissionRule.allowed s.first t) (A.ClearingRule.named s.first t w) (B.ClearingRule.named s.second t w) w r };

    ghost goes = { λ s t w r sound h.
        let P = A.AdmissionRule.allowed s.first t in
        let Q = B.AdmissionRule.allowed s.second t in
        ⊎_elim
        (λ a. names-first P Q t w r a.0 (A.ClearingRule.goes s.first t w r sound a.1))
        (λ b. names-second P Q t w r b.0 (B.ClearingRule.goes s.second t w r sound b.1))
        h };

    fn name(&self, stage: &Stage, placing: &[u16], space: &mut [u16]) -> Option<u8> {
        if self.first.allows(stage, placing, space) {
            return self.first.name(stage, placing, space);
        }
        self.second.name(stage, placing, space)
    }
}
