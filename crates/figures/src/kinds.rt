// The kinds of figure: the length of the way home, the lowest order, and the claim and the peak need of one resource.
ghost use Rattle.std.specs.Prelude.{◌≡◌, ◌+◌, ◌<◌, max, length, slice_index};
ghost use Rattle.tables.specs.Plan.{plan, need};
ghost use Rattle.figures.specs.Claims.{lowest, LowestOrders, claim_ending, claim_leading};

use crate::claim::Claim;
use crate::figure::Figure;
use crate::reads::lowest_order;
use tables::tables::Tables;

// The length of the way home of a last position.
pub const ALONE: u16 = 1;

#[derive(Drop)]
pub struct Lengths;

impl Figure for Lengths {
    type Value = u16;

    ghost suits = { λ _ _. Unit {0} };

    ghost ending = { λ _ _ _. 1 };

    ghost leading = { λ _ _ _ next. next + 1 };

    fn last(&self, _tables: &Tables, _p: usize) -> u16 {
        ALONE
    }

    fn before(&self, _tables: &Tables, _p: usize, next: u16) -> u16 {
        1 + next
    }
}

// The lowest order of each position, by itself.
#[derive(Drop)]
pub struct Lowest;

impl Figure for Lowest {
    type Value = u16;

    ghost suits = { λ _ _. Unit {0} };

    ghost ending = { λ _ t p. lowest t p };

    ghost leading = { λ _ t p _. lowest t p };

    fn last(&self, tables: &Tables, p: usize) -> u16 {
        lowest_order(tables, p)
    }

    fn before(&self, tables: &Tables, p: usize, _next: u16) -> u16 {
        lowest_order(tables, p)
    }
}

// The claim on one resource, over the lowest orders of the positions.
#[derive(Drop)]
pub struct Claims<'a> {
    pub resource: usize,
    pub lowest: &'a [u16],
}

impl Claims<'_> {
    // The claim of p, if that of its main next is `next`. A position's number fits 16 bits.
    fn with(&self, tables: &Tables, p: usize, next: Claim) -> Claim
        requires short { p < 65536 }
        requires within { p < length self.now.lowest.now }
        requires known { slice_index self.now.lowest.now p ≡ lowest (plan tables.now) p }
        ensures { result ≡ claim_leading (plan tables.now) self.now.resource p next }
    {
        let position = p as u16;
        if u16::from(tables.order(self.resource)) < self.lowest[p] {
            return Claim {
                amount: 0,
                position,
            };
        }
        let need = tables.need(p, self.resource);
        if need < next.amount {
            return next;
        }
        Claim {
            amount: need,
            position,
        }
    }
}

impl Figure for Claims<'_> {
    type Value = Claim;

    ghost suits = { λ s t. LowestOrders t s.lowest.now };

    ghost ending = { λ s t p. claim_ending t s.resource p };

    ghost leading = { λ s t p next. claim_leading t s.resource p next };

    fn last(&self, tables: &Tables, p: usize) -> Claim {
        self.with(
            tables,
            p,
            Claim {
                amount: 0,
                position: p as u16,
            },
        )
    }

    fn before(&self, tables: &Tables, p: usize, next: Claim) -> Claim {
        self.with(tables, p, next)
    }
}

// The peak need of one resource along the way home.
#[derive(Drop)]
pub struct Peaks {
    pub resource: usize,
}

impl Figure for Peaks {
    type Value = u16;

    ghost suits = { λ _ _. Unit {0} };

    ghost ending = { λ s t p. need t p s.resource };

    ghost leading = { λ s t p next. max (need t p s.resource) next };

    fn last(&self, tables: &Tables, p: usize) -> u16 {
        tables.need(p, self.resource)
    }

    fn before(&self, tables: &Tables, p: usize, next: u16) -> u16 {
        tables.need(p, self.resource).max(next)
    }
}
