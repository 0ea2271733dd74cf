// One field cut off the front of what is left of a file.
ghost use Rattle.std.specs.Prelude.{◌≡◌, ◌+◌, ◌≤◌, length, drop, IfOk};
ghost use Rattle.fields.specs.Bytes.{seen, cut_off, field_size};

use crate::faults::ByteFault;
use crate::spot::Spot;

// A field as the bytes have it, and where it stands. Any byte may stand for a tag.
#[derive(Clone, Copy)]
pub struct Raw<'a> {
    pub spot: Spot,
    pub tag: u8,
    pub body: &'a [u8],
}

// The file from a place on; nothing from its end on.
pub fn from_place<'a>(bytes: &'a [u8], place: usize) -> &'a [u8]
    ensures { result.now ≡ drop place bytes.now }
{
    bytes.get(place..).unwrap_or(&[])
}

pub fn cut<'a>(spot: Spot, left: &'a [u8]) -> Result<Raw<'a>, ByteFault>
    ensures cuts { seen result ≡ cut_off spot left.now }
    ensures size { IfOk result (λ p. (3 + length p.body.now ≡ field_size left.now) × (field_size left.now ≤ length left.now)) }
    ensures spot { IfOk result (λ p. p.spot ≡ spot) }
{
    let [tag, high, low, rest @ ..] = left else {
        return Err(ByteFault::HeadCut(spot));
    };
    let size = usize::from(u16::from_be_bytes([*high, *low]));
    let body = rest.get(..size).ok_or(ByteFault::BodyCut(spot))?;
    Ok(Raw {
        spot,
        tag: *tag,
        body,
    })
}
