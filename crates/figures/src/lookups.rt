// A figure of one position, as the stage holds it. What is no position has a way home of itself alone, and claims nothing.
ghost use Rattle.std.specs.Prelude.{◌≡◌, ◌<◌, ◌≤◌, take, length, MatchOption, slice_index_or};
ghost use Rattle.tables.specs.Plan.{plan, count};
ghost use Rattle.figures.specs.Way.{way_length};
ghost use Rattle.figures.specs.Claims.{lowest, claim_of, peak};

use crate::claim::Claim;
use crate::kinds::ALONE;
use crate::reads::{NO_ORDER, position_count};
use crate::stage::Stage;

// One chain each: the rows differ, and what is given of what is no position or no resource.
impl Stage {
    // The entries of a row that are of a position.
    pub(crate) fn used<'a, T>(&self, row: &'a [T; 128]) -> &'a [T]
        ensures front { result.now ≡ take (count (plan self.now.tables)) row.entry.now }
        ensures long { length result.now ≡ count (plan self.now.tables) }
    {
        &row[..position_count(&self.tables)]
    }

    // The entry of a position in a row; none for what is no position.
    fn entry<T: Copy>(&self, row: &[T; 128], p: u16) -> Option<T>
        ensures { MatchOption result (count (plan self.now.tables) ≤ p) (λ x. (p < count (plan self.now.tables)) × ((d : T) → slice_index_or row.now p d ≡ x)) }
    {
        self.used(row).get(usize::from(p)).copied()
    }

    // The length of the way home.
    pub fn length(&self, p: u16) -> u16
        ensures { result ≡ way_length (plan self.now.tables) p }
    {
        self.entry(&self.lengths, p).unwrap_or(ALONE)
    }

    // The lowest order of what is needed.
    pub fn lowest(&self, p: u16) -> u16
        ensures { result ≡ lowest (plan self.now.tables) p }
    {
        self.entry(&self.lowest, p).unwrap_or(NO_ORDER)
    }

    // The claim on a resource, with the position that sets it.
    pub fn claim(&self, resource: usize, p: u16) -> Claim
        ensures { result ≡ claim_of (plan self.now.tables) resource p }
    {
        self.resources
            .get(resource)
            .and_then(|figures| self.entry(&figures.claims, p))
            .unwrap_or(Claim {
                amount: 0,
                position: p,
            })
    }

    // The most that is needed of a resource along the way home.
    pub fn peak(&self, resource: usize, p: u16) -> u16
        ensures { result ≡ peak (plan self.now.tables) resource p }
    {
        self.resources
            .get(resource)
            .and_then(|figures| self.entry(&figures.peaks, p))
            .unwrap_or(0)
    }
}
