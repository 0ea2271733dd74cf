// The show file.
ghost use Rattle.tables.specs.Model.{counts_of, positions_of};
ghost use Rattle.layout.specs.Layout.{show_file};

use crate::cursor::Cursor;
use crate::encode::{Encode, put_all, size_of_all};
use tables::show::Show;

impl Encode for Show {
    ghost layout = { λ s. show_file (counts_of s.routes.items) (positions_of s.positions.items) };

    fn size(&self) -> usize {
        8 + 5 * self.routes.len() + size_of_all(self.positions.as_slice())
    }

    fn put(&self, out: &mut Cursor) {
        let mut left = self.positions.as_slice();
        out.put(&[0x01, 0, 2, 0x53, 1]);
        for route in &self.routes {
            let (mine, rest) = left.split_at(usize::from(route.count));
            route.put(out);
            put_all(mine, out);
            left = rest;
        }
        out.put(&[0x7f, 0, 0]);
    }
}
