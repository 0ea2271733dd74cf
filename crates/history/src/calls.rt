// The four calls and what they are answered.
use refusals::Refusal;

// Pieces, routes and positions are numbers as they are called: whether there are such is checked.
#[derive(Clone, Copy, PartialEq, Eq, Debug)]
pub enum Call {
    Start(u32, u32),
    Move(u32, u32),
    Leave(u32),
    Clear,
}

// What a granted call did: it moved the piece that it speaks of, or, a clear, took the piece that the rule names a step home.
#[derive(Clone, Copy, PartialEq, Eq, Debug)]
pub enum Granted {
    Moved,
    Cleared(u8),
}

pub type Answer = Result<Granted, Refusal>;
