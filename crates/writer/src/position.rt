// A position's field.
ghost use Rattle.std.specs.Prelude.{◌≡◌, ◌+◌, ◌≤◌, length};
ghost use Rattle.tables.specs.Model.{pos_of};
ghost use Rattle.layout.specs.Layout.{need_fields, position_field};
ghost use Rattle.writer.specs.Puts.{Fits, Appends};

use crate::cursor::Cursor;
use crate::encode::Encode;
use tables::position::Position;

// How many bytes the needs take.
fn needs_size(needs: &[u16; 16]) -> usize
    ensures size { result ≡ length (need_fields 0 needs.now) }
    ensures most { result ≤ 48 }
{
    3 * needs
        .iter()
        .map(|amount| usize::from(*amount > 0))
        .sum::<usize>()
}

fn put_needs(needs: &[u16; 16], out: &mut Cursor)
    requires { Fits (need_fields 0 needs.now) out.old }
    ensures { Appends (need_fields 0 needs.now) out.old out.new }
{
    for (i, amount) in needs.iter().enumerate() {
        if *amount > 0 {
            let [high, low] = amount.to_be_bytes();
            // There are 16 resources, so the number of one is a byte.
            out.put(&[i as u8, high, low]);
        }
    }
}

// How long the body of a position's field is: at most 53, so that two bytes hold it.
fn body_size(x: &Position) -> u16
    ensures size { 3 + result ≡ length (position_field (pos_of x.now)) }
    ensures most { result ≤ 53 }
{
    (1 + x.nexts.as_slice().len() + needs_size(&x.needs)) as u16
}

impl Encode for Position {
    ghost layout = { λ x. position_field (pos_of x) };

    fn size(&self) -> usize {
        3 + usize::from(body_size(self))
    }

    fn put(&self, out: &mut Cursor) {
        let nexts = self.nexts.as_slice();
        let [high, low] = body_size(self).to_be_bytes();
        // There are four next positions at most, so their count is a byte.
        out.put(&[0x21, high, low, nexts.len() as u8]);
        out.put(nexts);
        put_needs(&self.needs, out);
    }
}
