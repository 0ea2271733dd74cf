// A position of a route, and its next positions.
ghost use Rattle.std.specs.Prelude.{◌≡◌, take, slice_index};
ghost use Rattle.tables.specs.Model.{nexts_of};

use crate::nexts::Nexts;

#[derive(Clone, Copy)]
pub struct Position {
    pub nexts: Nexts,
    // by resource number, 0 where none is needed, so that a look-up is one read
    pub needs: [u16; 16],
}

impl Nexts {
    // The next positions that a field names; of more than four the first four.
    pub fn named(names: &[u8]) -> Nexts
        ensures { nexts_of result ≡ take 4 names.now }
    {
        let count = names.len().min(4);
        let mut items = [0u8; 4];
        items[0..count].copy_from_slice(&names[0..count]);
        Nexts { items, count }
    }

    pub fn as_slice(&self) -> &[u8]
        ensures { result.now ≡ nexts_of self.now }
    {
        &self.items[0..self.count]
    }
}

impl Position {
    // How much of a resource is needed here; 0 of one that there is not.
    pub fn need(&self, r: usize) -> u16
        ensures { result ≡ slice_index self.now.needs r }
    {
        self.needs.get(r).copied().unwrap_or(0)
    }
}
