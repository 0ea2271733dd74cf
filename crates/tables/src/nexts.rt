ghost use Rattle.std.specs.Prelude.{◌≤◌};

// The next positions of a position, in the order in which they were named: at most four, held in place, so that a position can be copied and owns no memory.
#[derive(Clone, Copy)]
pub struct Nexts {
    pub(crate) items: [u8; 4],
    pub(crate) count: usize,
    ghost few: { count ≤ 4 },
}
