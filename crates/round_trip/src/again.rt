// Tables written, and read again.
ghost use Rattle.std.specs.Prelude.{◌≡◌};
ghost use Rattle.tables.specs.Contents.{contents};
ghost use Rattle.layout.specs.Layout.{venue_file, show_file};
ghost use Rattle.round_trip.specs.Trips.{ReadAgain};

use fields::spot::Pair;
use files::pair::read;
use refusals::TooShort;
use tables::reserve::Reserve;
use tables::tables::Tables;
use writer::encode::write;

// Reads the two files that these tables are written as.
fn read_written(reserve: Reserve, tables: &Tables, pair: Pair<'_>) -> Tables
    requires venue { pair.venue.now ≡ venue_file (contents tables.now).resources }
    requires show { pair.show.now ≡ show_file (contents tables.now).counts (contents tables.now).positions }
    ensures { contents result ≡ contents tables.now }
{
    match read(reserve, pair) {
        Ok(again) => again,
        Err(_) => unreachable(),
    }
}

// Writes both files, and reads from them what was written: tables that hold the same.
pub fn read_again(
    reserve: Reserve,
    tables: &Tables,
    venue: &mut [u8],
    show: &mut [u8],
) -> Result<Tables, TooShort>
    ensures { ReadAgain result (contents tables.now) venue.old venue.new show.old show.new }
{
    let venue_end = write(&tables.venue, venue)?;
    let show_end = write(&tables.show, show)?;
    let pair = Pair {
        venue: &venue[0..venue_end],
        show: &show[0..show_end],
    };
    Ok(read_written(reserve, tables, pair))
}
