// The field reader stands over a file's own bytes.
ghost use Rattle.std.specs.Prelude.{◌≡◌, drop, is_ok, IfOk, if◌then◌else◌};
ghost use Rattle.fields.specs.Bytes.{tag, past, point_at, spot_at};
ghost use Rattle.fields.specs.Fields.{shown, shown_here, point_of, next_field, finished, closed, Shaped};

use crate::cut::{cut, from_place};
use crate::faults::{ByteFault, FieldFault};
use crate::field::{Field, Turn};
use crate::spot::{File, Spot};

#[derive(Drop)]
pub struct FieldReader<'a> {
    pub file: File,
    pub bytes: &'a [u8],
    pub place: usize,
}

impl<'a> FieldReader<'a> {
    pub fn over(file: File, bytes: &'a [u8]) -> FieldReader<'a>
        ensures { point_of result ≡ point_at file 0 bytes.now }
    {
        FieldReader {
            file,
            bytes,
            place: 0,
        }
    }

    pub fn spot(&self) -> Spot
        ensures { result ≡ spot_at (point_of self.now) }
    {
        Spot {
            file: self.file,
            place: self.place,
            byte: self.bytes.get(self.place).copied().unwrap_or(0),
        }
    }

    // The field at the place, of those that may come, and the place behind it.
    fn field_here(&self, turn: Turn) -> Result<(Field<'a>, usize), FieldFault>
        ensures found { shown_here result ≡ next_field turn (point_of self.now) }
        ensures behind { IfOk result (λ x. point_at self.now.file x.1 (drop x.1 self.now.bytes.now) ≡ past (point_of self.now)) }
        ensures shape { IfOk result (λ x. Shaped (tag (point_of self.now).left) x.0) }
    {
        let spot = self.spot();
        let raw = cut(spot, from_place(self.bytes, self.place))?;
        let field = raw.field(turn)?;
        let size = 3 + raw.body.len();
        Ok((field, self.place + size))
    }

    // The next field, of those that may come; the place moves behind it.
    pub fn next(&mut self, turn: Turn) -> Result<Field<'a>, FieldFault>
        ensures found { shown result ≡ next_field turn (point_of self.old) }
        ensures moved { point_of self.new ≡ (if is_ok result then past (point_of self.old) else point_of self.old) }
        ensures shape { IfOk result (Shaped (tag (point_of self.old).left)) }
    {
        let (field, behind) = self.field_here(turn)?;
        self.place = behind;
        Ok(field)
    }

    // Says that no byte is left, as has to be after an end.
    pub fn finish(&self) -> Result<(), ByteFault>
        ensures { result ≡ finished (spot_at (point_of self.now)) (point_of self.now).left }
    {
        let spot = self.spot();
        match from_place(self.bytes, self.place) {
            [] => Ok(()),
            _ => Err(ByteFault::AfterEnd(spot)),
        }
    }

    // The same, with a fault of the fields' layer: a caller of either layer has its own kind of fault.
    pub fn close(&self) -> Result<(), FieldFault>
        ensures { result ≡ closed (finished (spot_at (point_of self.now)) (point_of self.now).left) }
    {
        self.finish()?;
        Ok(())
    }
}
