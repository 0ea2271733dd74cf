// One position of a show file, judged by the tables and by the venue.
ghost use Rattle.std.specs.Prelude.{◌≡◌, ◌≤◌, ◌&&◌, length, IfOk, OnOk, nat_lt};
ghost use Rattle.fields.specs.Bytes.{past, spot_at};
ghost use Rattle.fields.specs.Fields.{point_of, next_field};
ghost use Rattle.fields.specs.declared.field.Turn.TheVariants.{InRoute};
ghost use Rattle.tables.specs.Valid.{has, nexts_ok};
ghost use Rattle.files.specs.Steps.{named_as, placed_as, named, placed};

use crate::needs::{need_row, some_exceeding, some_lacking};
use faults::layers::{FitFault, TableFault};
use fields::field::{Field, Turn};
use fields::reader::FieldReader;
use tables::nexts::Nexts;
use tables::position::Position;
use tables::resource::Resource;

// The next positions and the needs of a position, as the file names them.
pub struct Parts<'a> {
    pub nexts: &'a [u8],
    pub needs: &'a [u8],
}

// The number of a position, and where its route ends.
#[derive(Clone, Copy)]
pub(crate) struct Slot {
    pub own: usize,
    pub end: usize,
}

fn is_named(next: u8, others: &[u8]) -> bool
    ensures { result ≡ has next others.now }
{
    others.contains(&next)
}

impl Slot {
    // Whether a next position is beyond its own, and within the route.
    fn is_ahead(self, next: u8) -> bool
        ensures { result ≡ (nat_lt self.own next && nat_lt next self.end) }
    {
        let n = usize::from(next);
        self.own < n && n < self.end
    }

    // Whether each next position is ahead, and named once.
    fn all_ahead(self, nexts: &[u8]) -> bool
        ensures { result ≡ nexts_ok self.own self.end nexts.now }
    {
        let mut left = nexts;
        while let [next, more @ ..] = left {
            if !self.is_ahead(*next) {
                return false;
            }
            if is_named(*next, more) {
                return false;
            }
            left = more;
        }
        true
    }
}

fn read_parts<'a>(reader: &mut FieldReader<'a>, slot: Slot) -> Result<Parts<'a>, TableFault>
    ensures found { named_as result ≡ named slot.own slot.end (spot_at (point_of reader.old)) (next_field InRoute (point_of reader.old)) }
    ensures moved { IfOk result (λ x. (point_of reader.new ≡ past (point_of reader.old)) × (length x.nexts.now ≤ 4)) }
{
    let spot = reader.spot();
    match reader.next(Turn::InRoute)? {
        Field::Position { nexts, needs } => {
            if slot.all_ahead(nexts) {
                Ok(Parts { nexts, needs })
            } else {
                Err(TableFault::WrongNext(spot))
            }
        }
        _ => unreachable(),
    }
}

// The position with this number.
pub(crate) fn read_position(
    reader: &mut FieldReader<'_>,
    resources: &[Resource],
    slot: Slot,
) -> Result<Position, FitFault>
    ensures found { placed_as result ≡ placed resources.now (spot_at (point_of reader.old)) (named slot.own slot.end (spot_at (point_of reader.old)) (next_field InRoute (point_of reader.old))) }
    ensures moved { OnOk result (point_of reader.new ≡ past (point_of reader.old)) }
{
    let spot = reader.spot();
    let Parts { nexts, needs } = read_parts(reader, slot)?;
    if some_lacking(resources, needs) {
        return Err(FitFault::NotInVenue(spot));
    }
    if some_exceeding(resources, needs) {
        return Err(FitFault::AboveCapacity(spot));
    }
    Ok(Position {
        nexts: Nexts::named(nexts),
        needs: need_row(needs),
    })
}
