// The front of a line, as far as it can matter: a longer line says nothing.
ghost use Rattle.std.specs.Prelude.{◌≤◌};

#[derive(Clone, Copy)]
pub struct Pending {
    pub bytes: [u8; 18],
    pub count: usize,
    ghost few: { count ≤ 18 },
}
