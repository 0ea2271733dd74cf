// Tables written back, and compared with the files that they were read from.
ghost use Rattle.std.specs.Prelude.{◌≡◌, ℕ, List};
ghost use Rattle.tables.specs.Contents.{Contents};
ghost use Rattle.tables.specs.Model.{counts_of, positions_of};
ghost use Rattle.layout.specs.Layout.{venue_file, show_file};
ghost use Rattle.files.specs.Pairs.{Laid};
ghost use Rattle.round_trip.specs.Trips.{Compared, Same};

use crate::compare::first_difference;
use refusals::TooShort;
use tables::show::Show;
use tables::venue::Venue;
use writer::encode::{Encode, write};

// How long a written file is, and where it first differs from another, if anywhere.
#[derive(Clone, Copy)]
pub struct Back {
    pub length: usize,
    pub differs: Option<usize>,
}

// Writes a file, and compares it with the bytes.
fn written_back<F: Encode>(file: &F, bytes: &[u8], space: &mut [u8]) -> Result<Back, TooShort>
    ensures compared { Compared result (F.layout file.now) bytes.now space.old space.new }
    ensures same { bytes.now ≡ F.layout file.now → Same result }
{
    let length = write(file, space)?;
    let differs = first_difference(&space[0..length], bytes);
    Ok(Back { length, differs })
}

// Writes the venue, and compares it with the bytes. Bytes that were read as this venue are the same.
pub fn venue_back(venue: &Venue, bytes: &[u8], space: &mut [u8]) -> Result<Back, TooShort>
    ensures compared { Compared result (venue_file venue.now.resources.items) bytes.now space.old space.new }
    ensures same { (show : List ℕ) (c : Contents) → Laid bytes.now show c → c.resources ≡ venue.now.resources.items → Same result }
{
    written_back(venue, bytes, space)
}

// Writes the show, and compares it with the bytes. Bytes that were read as this show are the same.
pub fn show_back(show: &Show, bytes: &[u8], space: &mut [u8]) -> Result<Back, TooShort>
    ensures compared { Compared result (show_file (counts_of show.now.routes.items) (positions_of show.now.positions.items)) bytes.now space.old space.new }
    ensures same { (venue : List ℕ) (c : Contents) → Laid venue bytes.now c → c.counts ≡ counts_of show.now.routes.items → c.positions ≡ positions_of show.now.positions.items → Same result }
{
    written_back(show, bytes, space)
}
