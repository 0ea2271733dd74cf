// The sheets: a figure of each position, put into a given row.
ghost use Rattle.tables.specs.Plan.{plan};
ghost use Rattle.figures.specs.Way.{way_length};
ghost use Rattle.figures.specs.Sheets.{Sheet, ClaimSheet, Copied};

use crate::claim::Claim;
use crate::reads::resource_count;
use crate::stage::Stage;
use refusals::Refusal;

// Copies the figures to the front of the row. It answers no length and refuses with a number of its own, unlike what puts a text into a space.
fn copy<T: Copy>(figures: &[T], row: &mut [T]) -> Result<(), Refusal>
    ensures { Copied figures.now row.old result row.new }
{
    if row.len() < figures.len() {
        return Err(Refusal::RowTooShort);
    }
    row[..figures.len()].copy_from_slice(figures);
    Ok(())
}

impl Stage {
    // Writes the length of each position's way home, and leaves the entries past the last position.
    pub fn length_sheet(&self, row: &mut [u16]) -> Result<(), Refusal>
        ensures { Sheet (plan self.now.tables) (way_length (plan self.now.tables)) row.old result row.new }
    {
        copy(self.used(&self.lengths), row)
    }

    // Writes each position's claim on a resource with the position that sets it, and leaves the entries past the last position.
    pub fn claim_sheet(&self, resource: usize, row: &mut [Claim]) -> Result<(), Refusal>
        ensures { ClaimSheet (plan self.now.tables) resource row.old result row.new }
    {
        if resource >= resource_count(&self.tables) {
            return Err(Refusal::NoSuchResource);
        }
        copy(self.used(&self.resources[resource].claims), row)
    }
}
