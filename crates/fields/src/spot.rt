// Where in which file.
ghost use Rattle.std.specs.Prelude.{◌≡◌};
ghost use Rattle.fields.specs.Bytes.{of_file};

#[derive(Clone, Copy)]
pub enum File {
    Venue,
    Show,
}

// The place of a field's tag, in bytes from the file's start, and the byte there, 0 if there is none.
#[derive(Clone, Copy)]
pub struct Spot {
    pub file: File,
    pub place: usize,
    pub byte: u8,
}

// The bytes of a venue file and of a show file.
#[derive(Clone, Copy)]
pub struct Pair<'a> {
    pub venue: &'a [u8],
    pub show: &'a [u8],
}

impl<'a> Pair<'a> {
    // The bytes of one of the two.
    pub fn of(self, file: File) -> &'a [u8]
        ensures { result.now ≡ of_file file self.entry.venue.now self.entry.show.now }
    {
        match file {
            File::Venue => self.venue,
            File::Show => self.show,
        }
    }
}

// The same, owned.
#[derive(Drop)]
pub struct Files {
    pub venue: Vec<u8>,
    pub show: Vec<u8>,
}

impl Files {
    pub fn pair(&self) -> Pair<'_>
        ensures venue { result.venue.now ≡ self.now.venue.items }
        ensures show { result.show.now ≡ self.now.show.items }
    {
        Pair {
            venue: self.venue.as_slice(),
            show: self.show.as_slice(),
        }
    }
}
