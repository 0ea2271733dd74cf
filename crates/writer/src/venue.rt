// The venue file.
ghost use Rattle.layout.specs.Layout.{venue_file};

use crate::cursor::Cursor;
use crate::encode::{Encode, put_all};
use tables::venue::Venue;

impl Encode for Venue {
    ghost layout = { λ v. venue_file v.resources.items };

    fn size(&self) -> usize {
        8 + 14 * self.resources.len()
    }

    fn put(&self, out: &mut Cursor) {
        out.put(&[0x01, 0, 2, 0x56, 1]);
        put_all(self.resources.as_slice(), out);
        out.put(&[0x7f, 0, 0]);
    }
}
