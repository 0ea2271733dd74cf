// The field that a fault speaks of.
ghost use Rattle.std.specs.Prelude.{◌≡◌, take};
ghost use Rattle.fields.specs.Bytes.{field_size};
ghost use Rattle.faults.specs.Faults.{offending_of};

use crate::layers::FitFault;
use fields::cut::from_place;
use fields::spot::Pair;

// The field at the front: to its own end, or as far as there is anything.
fn first_field<'a>(left: &'a [u8]) -> &'a [u8]
    ensures { result.now ≡ take (field_size left.now) left.now }
{
    let [_, high, low, ..] = left else {
        return left;
    };
    let size = usize::from(u16::from_be_bytes([*high, *low]));
    left.get(..3 + size).unwrap_or(left)
}

// The offending field, a part of whichever file it stands in.
pub fn offending<'a>(fault: FitFault, pair: Pair<'a>) -> &'a [u8]
    ensures { result.now ≡ offending_of fault pair.entry.venue.now pair.entry.show.now }
{
    let spot = fault.spot();
    first_field(from_place(pair.of(spot.file), spot.place))
}
