// A call of an evening with its answer, and how many pieces are on and the distance home after it.
use history::calls::{Answer, Call};

#[derive(Clone, Copy)]
pub struct Step {
    pub call: Call,
    pub answer: Answer,
    pub pieces: usize,
    pub distance: u16,
}
