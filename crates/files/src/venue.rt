// The venue file: a header, one or more resources, and an end.
ghost use Rattle.std.specs.Prelude.{◌≡◌, ◌≤◌, true, [], length, IfOk, if◌then◌else◌, vec_len, vec_capacity, MatchResult, nat_eq, nat_le};
ghost use Rattle.fields.specs.declared.field.Turn.TheVariants.{FirstResource, MoreResources};
ghost use Rattle.faults.specs.declared.layers.FitFault.TheVariants.{Tables};
ghost use Rattle.tables.specs.Valid.{valid_venue};
ghost use Rattle.layout.specs.Layout.{venue_file};
ghost use Rattle.layout.specs.Reading.{FirstBad, Ends, venue_start};

use crate::turns::turn_after;
use faults::layers::TableFault;
use fields::faults::FieldFault;
use fields::field::{Field, Turn};
use fields::reader::FieldReader;
use fields::spot::File;
use tables::reserve::VenueReserve;
use tables::resource::Resource;
use tables::venue::Venue;

const MOST_RESOURCES: usize = 16;

// Whether so many resources leave no room for one more.
fn is_full(count: usize) -> bool
    ensures { result ≡ nat_le 16 count }
{
    count >= MOST_RESOURCES
}

// The whole file, its resources into the table.
fn read_resources(bytes: &[u8], resources: &mut Vec<Resource>) -> Result<(), TableFault>
    requires { (vec_len resources.old ≡ 0) × (16 ≤ vec_capacity resources.old) }
    ensures { MatchResult result (λ _. (valid_venue resources.new.items ≡ true) × (bytes.now ≡ venue_file resources.new.items)) (λ e. FirstBad (venue_start bytes.now) (Tables e)) }
{
    let mut reader = FieldReader::over(File::Venue, bytes);
    reader.next(Turn::Head)?;
    loop {
        let spot = reader.spot();
        match reader.next(turn_after(resources.len(), Turn::FirstResource, Turn::MoreResources))? {
            Field::Resource {
                capacity,
                order,
                name,
            } => {
                if is_full(resources.len()) {
                    // the value stands where it is made
                    return Err(TableFault::Fields(FieldFault::TooMany(spot)));
                }
                resources.push_reserved(Resource {
                    capacity,
                    order,
                    name: *name,
                });
            }
            Field::End => {
                reader.close()?;
                return Ok(());
            }
            _ => unreachable(),
        }
    }
}

// The venue, in memory that was reserved for it.
pub fn read_venue(reserve: VenueReserve, bytes: &[u8]) -> Result<Venue, TableFault>
    ensures ends { MatchResult result (λ v. Ends (venue_start bytes.now) v.resources.items [] []) (λ e. FirstBad (venue_start bytes.now) (Tables e)) }
    ensures laid { IfOk result (λ v. bytes.now ≡ venue_file v.resources.items) }
{
    let VenueReserve { mut resources } = reserve;
    read_resources(bytes, &mut resources)?;
    Ok(Venue { resources })
}
