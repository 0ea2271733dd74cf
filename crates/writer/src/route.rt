// A route's field.
ghost use Rattle.layout.specs.Layout.{route_field};

use crate::cursor::Cursor;
use crate::encode::Encode;
use tables::route::Route;

impl Encode for Route {
    ghost layout = { λ r. route_field r.count };

    fn size(&self) -> usize {
        5
    }

    fn put(&self, out: &mut Cursor) {
        let [high, low] = self.count.to_be_bytes();
        out.put(&[0x20, 0, 2, high, low]);
    }
}
