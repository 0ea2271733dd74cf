// Admission rules and clearing rules. Each question is of a stage, and is lent a placing as plain numbers and a working space of 64 numbers, all of which it leaves zero.
ghost use Rattle.std.specs.Prelude.{◌≡◌, ℕ, ◌<◌, List, length, set, replicate, Decides, Option, slice_set};
ghost use Rattle.tables.specs.Plan.{Plan, plan, count};
ghost use Rattle.figures.specs.Sound.{Sound};
ghost use Rattle.figures.specs.Placing.{off};
ghost use Rattle.rules.specs.Placing.{Formed, Fits, nobody};
ghost use Rattle.rules.specs.Rule.{Names};

use figures::stage::Stage;

// An admission rule means a set of allowed placings, fixed by the rule, the venue and the show.
pub trait AdmissionRule {
    ghost allowed: { Self → Plan → List ℕ → Type 0 };

    fn allows(&self, stage: &Stage, placing: &[u16], space: &mut [u16]) -> bool
        requires { length space.old ≡ 64 }
        ensures answer { Decides result (allowed self.now (plan stage.now.tables) placing.now) }
        ensures zeroed { space.new ≡ replicate 64 0 };

    // an allowed list is a placing
    ghost formed: { (s : Self) (t : Plan) (w : List ℕ) → Sound t → allowed s t w → Formed t w };

    // the empty placing is allowed
    ghost empty: { (s : Self) (t : Plan) → Sound t → allowed s t nobody };

    // every placing with just one piece on is allowed
    ghost alone: { (s : Self) (t : Plan) (k p : ℕ) → Sound t → k < 64 → p < count t → allowed s t (slice_set nobody k p) };

    // every allowed placing fits
    ghost fits: { (s : Self) (t : Plan) (w : List ℕ) → Sound t → allowed s t w → Fits t w };

    // taking one piece off an allowed placing leaves an allowed one
    ghost removal: { (s : Self) (t : Plan) (w : List ℕ) (k : ℕ) → Sound t → allowed s t w → k < 64 → allowed s t (slice_set w k off) };
}

// A clearing rule is an admission rule that also names a piece to go.
pub trait ClearingRule: AdmissionRule {
    // what the rule answers for a list of numbers
    ghost named: { Self → Plan → List ℕ → Option ℕ → Type 0 };

    fn name(&self, stage: &Stage, placing: &[u16], space: &mut [u16]) -> Option<u8>
        requires { length space.old ≡ 64 }
        ensures answer { named self.now (plan stage.now.tables) placing.now result }
        ensures zeroed { space.new ≡ replicate 64 0 };

    // the piece that is named is on, and its step home gives an allowed placing
    ghost goes: { (s : Self) (t : Plan) (w : List ℕ) (r : Option ℕ) → Sound t → named s t w r → Names (Self.AdmissionRule.allowed s t) t w r };
}
