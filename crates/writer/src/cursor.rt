// A space that is written from the front on.
ghost use Rattle.std.specs.Prelude.{◌≡◌};
ghost use Rattle.writer.specs.Puts.{Fits, Appends};

// The bytes before `at` are written; the space is lent whole and has its own length.
#[derive(Drop)]
pub struct Cursor<'a> {
    pub(crate) space: &'a mut [u8],
    pub(crate) at: usize,
}

impl<'a> Cursor<'a> {
    // At the front of a space.
    pub(crate) fn new(space: &'a mut [u8]) -> Cursor<'a>
        ensures same_reference { result.space.ghost_name ≡ space.entry.ghost_name }
        ensures same { result.space.now ≡ space.old }
        ensures front { result.at ≡ 0 }
    {
        Cursor { space, at: 0 }
    }

    // Puts a part where the cursor stands, and moves behind it.
    pub(crate) fn put(&mut self, part: &[u8])
        requires { Fits part.now self.old }
        ensures { Appends part.now self.old self.new }
    {
        let end = self.at + part.len();
        let space = &mut *self.space;
        space[self.at..end].copy_from_slice(part);
        self.at = end;
    }
}
