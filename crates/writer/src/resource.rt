// A resource's field.
ghost use Rattle.layout.specs.Layout.{resource_field};

use crate::cursor::Cursor;
use crate::encode::Encode;
use tables::resource::Resource;

impl Encode for Resource {
    ghost layout = { resource_field };

    fn size(&self) -> usize {
        let Resource { name, .. } = self;
        6 + name.len()
    }

    fn put(&self, out: &mut Cursor) {
        let [high, low] = self.capacity.to_be_bytes();
        out.put(&[0x10, 0, 11, high, low, self.order]);
        out.put(&self.name);
    }
}
