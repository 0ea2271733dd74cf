// The rows that a run prints.
ghost use Rattle.std.specs.Prelude.{◌≡◌, IfOk, string_bytes};
ghost use Rattle.session.specs.Session.{answer_number, row_text};

use crate::shown::Shown;
use std::alloc::{AllocError, Global};

// The number of a line, its answer, and the distance home.
pub fn row(heap: Global, number: u64, shown: Shown) -> Result<String, AllocError>
    ensures { IfOk result (λ s. string_bytes s ≡ row_text number (answer_number shown.answer) shown.distance) }
{
    format!(in heap; "{number} {shown}")
}
