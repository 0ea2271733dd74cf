// What can be asked of a console. Nothing changes it.
ghost use Rattle.std.specs.Prelude.{◌≡◌, ◌<◌, ◌≤◌, MatchResult, slice_index_or};
ghost use Rattle.refusals.specs.declared.Refusal.TheVariants.{NoSuchPiece, NoSuchResource};
ghost use Rattle.tables.specs.Plan.{plan, kinds};
ghost use Rattle.figures.specs.Placing.{off, distance};
ghost use Rattle.rules.specs.Placing.{held, on_count};

use crate::console::Console;
use figures::reads::resource_count;
use figures::stage::Stage;
use refusals::Refusal;
use rules::holdings::held;
use rules::placing::{OFF, pieces_on};

// The lengths of the ways home of the pieces on, added up.
fn distance(stage: &Stage, placing: &[u16; 64]) -> u16
    ensures { result ≡ distance (plan stage.now.tables) placing.now }
{
    placing
        .iter()
        .map(|p| if *p == OFF { 0 } else { stage.length(*p) })
        .sum()
}

impl<R> Console<R> {
    // Where a piece is: its position, or 65,535 for off. The number that is called is a place in the table as it is.
    pub fn whereabouts(&self, piece: u32) -> Result<u16, Refusal>
        ensures { MatchResult result (λ p. (piece < 64) × (p ≡ slice_index_or self.now.placing piece off)) (λ e. (64 ≤ piece) × (e ≡ NoSuchPiece)) }
    {
        self.placing
            .get(piece as usize)
            .copied()
            .ok_or(Refusal::NoSuchPiece)
    }

    // How much of a resource the pieces on hold. The number alone is tested, since nothing else of the resource is looked at.
    pub fn held(&self, resource: u32) -> Result<u32, Refusal>
        ensures { MatchResult result (λ n. (resource < kinds (plan self.now.stage.tables)) × (n ≡ held (plan self.now.stage.tables) resource self.now.placing)) (λ e. (kinds (plan self.now.stage.tables) ≤ resource) × (e ≡ NoSuchResource)) }
    {
        let number = resource as usize;
        if number >= resource_count(&self.stage.tables) {
            return Err(Refusal::NoSuchResource);
        }
        Ok(held(&self.stage, number, &self.placing))
    }

    // How many pieces are on, and the distance home.
    pub fn home(&self) -> (usize, u16)
        ensures pieces { result.0 ≡ on_count self.now.placing }
        ensures distance { result.1 ≡ distance (plan self.now.stage.tables) self.now.placing }
    {
        (
            pieces_on(&self.placing),
            distance(&self.stage, &self.placing),
        )
    }
}
