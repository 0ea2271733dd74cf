// What is written in a layout of its own.
ghost use Rattle.std.specs.Prelude.{◌≡◌, ℕ, ◌<◌, ◌^◌, List, length};
ghost use Rattle.std.specs.List.{flat_map};
ghost use Rattle.refusals.specs.Written.{Written};
ghost use Rattle.writer.specs.Puts.{Fits, Appends};

use crate::cursor::Cursor;
use refusals::TooShort;

// A field with what belongs to it, or a whole file.
pub trait Encode {
    // Its bytes in the file.
    ghost layout: { Self → List ℕ };

    // How many bytes it takes.
    fn size(&self) -> usize
        ensures { result ≡ length (layout self.now) };

    // Puts it where the cursor stands.
    fn put(&self, out: &mut Cursor)
        requires { Fits (layout self.now) out.old }
        ensures { Appends (layout self.now) out.old out.new };
}

// How many bytes all these take.
pub(crate) fn size_of_all<T: Encode>(parts: &[T]) -> usize
    requires { length (flat_map T.layout parts.now) < 2 ^ 64 }
    ensures { result ≡ length (flat_map T.layout parts.now) }
{
    parts.iter().map(|part| part.size()).sum()
}

// Puts one after another.
pub(crate) fn put_all<T: Encode>(parts: &[T], out: &mut Cursor)
    requires { Fits (flat_map T.layout parts.now) out.old }
    ensures { Appends (flat_map T.layout parts.now) out.old out.new }
{
    for part in parts {
        part.put(out);
    }
}

// Writes a file at the front of the space, and answers its length.
pub fn write<F: Encode>(file: &F, space: &mut [u8]) -> Result<usize, TooShort>
    ensures { Written result (F.layout file.now) space.old space.new }
{
    let needed = file.size();
    if space.len() < needed {
        return Err(TooShort { needed });
    }
    let mut out = Cursor::new(space);
    file.put(&mut out);
    Ok(needed)
}
