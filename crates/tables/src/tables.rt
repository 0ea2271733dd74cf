ghost use Rattle.std.specs.Prelude.{◌≡◌, true};
ghost use Rattle.tables.specs.Model.{positions_of};
ghost use Rattle.tables.specs.Valid.{fits_venue};

use crate::show::Show;
use crate::venue::Venue;

// A venue, and a show that fits it.
#[derive(Drop)]
pub struct Tables {
    pub venue: Venue,
    pub show: Show,
    ghost fits: { fits_venue venue.resources.items (positions_of show.positions.items) ≡ true },
}
