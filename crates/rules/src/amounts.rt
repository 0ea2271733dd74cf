// Amounts of a resource, added up over the pieces on.
ghost use Rattle.std.specs.Prelude.{◌≡◌, ℕ, MatchOption, Decides};
ghost use Rattle.tables.specs.Plan.{Plan, plan, need};
ghost use Rattle.figures.specs.Claims.{claim};
ghost use Rattle.rules.specs.Placing.{Formed, total, Within};

use crate::placing::{OFF, formed};
use figures::reads::resource_count;
use figures::stage::Stage;

// What a piece at a position counts for, of a resource.
pub trait Amount {
    ghost amount: { Self → Plan → ℕ → ℕ → ℕ };

    fn amount(&self, stage: &Stage, resource: usize, p: u16) -> u16
        ensures { result ≡ amount self.now (plan stage.now.tables) resource p };
}

// What it needs there.
#[derive(Drop)]
pub struct Needed;

impl Amount for Needed {
    ghost amount = { λ _ t r p. need t p r };

    fn amount(&self, stage: &Stage, resource: usize, p: u16) -> u16 {
        stage.tables.need(usize::from(p), resource)
    }
}

// What it claims from there on.
#[derive(Drop)]
pub struct Claimed;

impl Amount for Claimed {
    ghost amount = { λ _ t r p. claim t r p };

    fn amount(&self, stage: &Stage, resource: usize, p: u16) -> u16 {
        stage.claim(resource, p).amount
    }
}

// The amounts of a resource, added up.
pub(crate) fn total<A: Amount>(kind: &A, stage: &Stage, resource: usize, placing: &[u16; 64]) -> u32
    ensures { result ≡ total (A.Amount.amount kind.now (plan stage.now.tables) resource) placing.now }
{
    placing
        .iter()
        .filter(|p| **p != OFF)
        .map(|p| u32::from(kind.amount(stage, resource, *p)))
        .sum()
}

// Whether the amounts of each resource come to at most its capacity.
fn all_within<A: Amount>(kind: &A, stage: &Stage, placing: &[u16; 64]) -> bool
    ensures { Decides result (Within (plan stage.now.tables) (A.Amount.amount kind.now (plan stage.now.tables)) placing.now) }
{
    (0..resource_count(&stage.tables)).all(|resource| {
        total(kind, stage, resource, placing) <= u32::from(stage.tables.capacity(resource))
    })
}

// The placing that a list is, if it is one whose amounts are within the capacities.
pub(crate) fn within<'a, A: Amount>(
    kind: &A,
    stage: &Stage,
    numbers: &'a [u16],
) -> Option<&'a [u16; 64]>
    ensures { MatchOption result (Formed (plan stage.now.tables) numbers.entry.now × Within (plan stage.now.tables) (A.Amount.amount kind.now (plan stage.now.tables)) numbers.entry.now → ⊥) (λ w. (w.now ≡ numbers.entry.now) × Formed (plan stage.now.tables) numbers.entry.now × Within (plan stage.now.tables) (A.Amount.amount kind.now (plan stage.now.tables)) numbers.entry.now) }
{
    formed(&stage.tables, numbers).filter(|placing| all_within(kind, stage, *placing))
}
