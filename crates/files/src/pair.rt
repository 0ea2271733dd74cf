// Both files at once, the venue file entirely first.
ghost use Rattle.std.specs.Prelude.{◌≡◌, ℕ, List, IfOk, IfErr};
ghost use Rattle.tables.specs.Contents.{Contents, contents};
ghost use Rattle.layout.specs.Layout.{venue_file};
ghost use Rattle.layout.specs.Reading.{FaultOf};
ghost use Rattle.files.specs.Pairs.{Laid, Holds};

use crate::show::read_show;
use crate::venue::read_venue;
use faults::layers::FitFault;
use fields::spot::Pair;
use tables::reserve::{Reserve, ShowReserve};
use tables::tables::Tables;
use tables::venue::Venue;

// The venue with its show, which is read in the memory that was reserved for it.
fn with_show(venue: Venue, reserve: ShowReserve, show: &[u8]) -> Result<Tables, FitFault>
    ensures only { (file : List ℕ) → file ≡ venue_file venue.resources.items → IfOk result (λ t. Laid file show.now (contents t)) }
    ensures every { (file : List ℕ) → file ≡ venue_file venue.resources.items → (c : Contents) → Laid file show.now c → Holds result c }
    ensures fault { (file : List ℕ) → file ≡ venue_file venue.resources.items → IfErr result (FaultOf file show.now) }
{
    let show = read_show(venue.resources.as_slice(), reserve, show)?;
    Ok(Tables { venue, show })
}

// The tables of the two files, which are lent, in the memory that was reserved, which is used up, or the fault of the first bad field.
pub fn read(reserve: Reserve, pair: Pair<'_>) -> Result<Tables, FitFault>
    ensures only { IfOk result (λ t. Laid pair.entry.venue.now pair.entry.show.now (contents t)) }
    ensures every { (c : Contents) → Laid pair.entry.venue.now pair.entry.show.now c → Holds result c }
    ensures fault { IfErr result (FaultOf pair.entry.venue.now pair.entry.show.now) }
{
    let Reserve { venue, show } = reserve;
    let venue = read_venue(venue, pair.venue)?;
    with_show(venue, show, pair.show)
}
