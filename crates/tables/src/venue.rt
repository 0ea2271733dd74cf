ghost use Rattle.std.specs.Prelude.{◌≡◌, true};
ghost use Rattle.tables.specs.Valid.{valid_venue};

use crate::resource::Resource;

// The resources of a venue, numbered from 0.
#[derive(Drop)]
pub struct Venue {
    pub resources: Vec<Resource>,
    ghost valid: { valid_venue resources.items ≡ true },
}
