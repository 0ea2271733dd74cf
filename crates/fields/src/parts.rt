// A field's body taken apart, by its tag.
ghost use Rattle.std.specs.Prelude.{◌≡◌, ◌+◌, true, false, not, ◌&&◌, ◌||◌, length, drop, IfOk, MatchOption, ◌==◌, nat_lt, slice_index};
ghost use Rattle.fields.specs.Fields.{shown, allowed, byte_of_kind, byte_of_tag, judged, front, ragged, rises, next_count, next_bytes, need_bytes, field_of, Shaped, header, resource, route, position, end};

use crate::cut::Raw;
use crate::faults::FieldFault;
use crate::field::{Field, Tag, Turn};
use crate::spot::File;

const MOST_NEXTS: usize = 4;

fn may_come(turn: Turn, tag: Tag) -> bool
    ensures { result ≡ allowed turn (byte_of_tag tag) }
{
    match turn {
        Turn::Head => tag == Tag::Header,
        Turn::FirstResource => tag == Tag::Resource,
        Turn::MoreResources => tag == Tag::Resource || tag == Tag::End,
        Turn::FirstRoute => tag == Tag::Route,
        Turn::MoreRoutes => tag == Tag::Route || tag == Tag::End,
        Turn::InRoute => tag == Tag::Position,
    }
}

// The byte that a file's header names its kind by; a fault names it by another number, so neither is its one number.
fn kind_byte(file: File) -> u8
    ensures { result ≡ byte_of_kind file }
{
    match file {
        File::Venue => 0x56,
        File::Show => 0x53,
    }
}

// Whether the resource numbers rise strictly, and each amount is at least 1.
fn needs_rise(needs: &[u8]) -> bool
    ensures { result ≡ rises 0 needs.now }
{
    let mut least: u16 = 0;
    let mut left = needs;
    while let [number, high, low, more @ ..] = left {
        let number = u16::from(*number);
        let amount = u16::from_be_bytes([*high, *low]);
        if number < least || amount == 0 {
            return false;
        }
        least = number + 1;
        left = more;
    }
    true
}

// A position's body as its next list and its needs, if it has room for the list and whole needs.
fn position_parts<'a>(body: &'a [u8]) -> Option<(&'a [u8], &'a [u8])>
    ensures { MatchOption result (ragged body.now ≡ true) (λ x. (ragged body.now ≡ false) × (x.0.now ≡ next_bytes body.now) × (x.1.now ≡ need_bytes body.now) × (length x.0.now ≡ next_count body.now)) }
{
    let [count, rest @ ..] = body else {
        return None;
    };
    let (nexts, needs) = rest.split_at_checked(usize::from(*count))?;
    if needs.len() % 3 == 0 {
        Some((nexts, needs))
    } else {
        None
    }
}

impl<'a> Raw<'a> {
    fn header(self) -> Result<Field<'a>, FieldFault>
        ensures value { shown result ≡ judged self.entry.spot (not (length self.entry.body.now == 2)) (not (slice_index self.entry.body.now 0 == byte_of_kind self.entry.spot.file && slice_index self.entry.body.now 1 == 1)) (header (slice_index self.entry.body.now 0) (slice_index self.entry.body.now 1)) }
        ensures shape { IfOk result (Shaped 0x01) }
    {
        let [kind, version] = self.body else {
            return Err(FieldFault::WrongLength(self.spot));
        };
        if *kind == kind_byte(self.spot.file) && *version == 1 {
            Ok(Field::Header {
                file: self.spot.file,
                version: *version,
            })
        } else {
            Err(FieldFault::OutOfRange(self.spot))
        }
    }

    fn resource(self) -> Result<Field<'a>, FieldFault>
        ensures value { shown result ≡ judged self.entry.spot (not (length self.entry.body.now == 11)) (front self.entry.body.now == 0) (resource (front self.entry.body.now) (slice_index self.entry.body.now 2) (drop 3 self.entry.body.now)) }
        ensures shape { IfOk result (Shaped 0x10) }
    {
        let [high, low, order, rest @ ..] = self.body else {
            return Err(FieldFault::WrongLength(self.spot));
        };
        let name = <&[u8; 8]>::try_from(rest).map_err(|_| FieldFault::WrongLength(self.spot))?;
        let capacity = u16::from_be_bytes([*high, *low]);
        if capacity == 0 {
            return Err(FieldFault::OutOfRange(self.spot));
        }
        Ok(Field::Resource {
            capacity,
            order: *order,
            name,
        })
    }

    fn route(self) -> Result<Field<'a>, FieldFault>
        ensures value { shown result ≡ judged self.entry.spot (not (length self.entry.body.now == 2)) (front self.entry.body.now == 0 || nat_lt 128 (front self.entry.body.now)) (route (front self.entry.body.now)) }
        ensures shape { IfOk result (Shaped 0x20) }
    {
        let [high, low] = self.body else {
            return Err(FieldFault::WrongLength(self.spot));
        };
        let count = u16::from_be_bytes([*high, *low]);
        if count == 0 || count > 128 {
            Err(FieldFault::OutOfRange(self.spot))
        } else {
            Ok(Field::Route { count })
        }
    }

    fn position(self) -> Result<Field<'a>, FieldFault>
        ensures value { shown result ≡ judged self.entry.spot (ragged self.entry.body.now) (nat_lt 4 (next_count self.entry.body.now) || not (rises 0 (need_bytes self.entry.body.now))) (position (next_bytes self.entry.body.now) (need_bytes self.entry.body.now)) }
        ensures shape { IfOk result (Shaped 0x21) }
    {
        let (nexts, needs) = position_parts(self.body).ok_or(FieldFault::WrongLength(self.spot))?;
        if nexts.len() <= MOST_NEXTS && needs_rise(needs) {
            Ok(Field::Position { nexts, needs })
        } else {
            Err(FieldFault::OutOfRange(self.spot))
        }
    }

    fn end(self) -> Result<Field<'a>, FieldFault>
        ensures value { shown result ≡ judged self.entry.spot (not (length self.entry.body.now == 0)) false end }
        ensures shape { IfOk result (Shaped 0x7f) }
    {
        if self.body.is_empty() {
            Ok(Field::End)
        } else {
            Err(FieldFault::WrongLength(self.spot))
        }
    }

    // What the field says, where `turn` says which may come.
    pub fn field(self, turn: Turn) -> Result<Field<'a>, FieldFault>
        ensures value { shown result ≡ field_of self.entry.spot turn self.entry.tag self.entry.body.now }
        ensures shape { IfOk result (Shaped self.entry.tag) }
    {
        let tag = Tag::try_from(self.tag).map_err(|_| FieldFault::UnfamiliarTag(self.spot))?;
        if !may_come(turn, tag) {
            return Err(FieldFault::OutOfTurn(self.spot));
        }
        match tag {
            Tag::Header => self.header(),
            Tag::Resource => self.resource(),
            Tag::Route => self.route(),
            Tag::Position => self.position(),
            Tag::End => self.end(),
        }
    }
}
