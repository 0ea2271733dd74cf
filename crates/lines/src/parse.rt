// What a line of input says.
ghost use Rattle.std.specs.Option.{MatchOption};
ghost use Rattle.history.specs.declared.calls.Call.{Call};
ghost use Rattle.lines.specs.Lines.{Says};

use crate::numbers::{number, two_numbers};
use crate::words::behind;
use history::calls::Call;

// The call that a line says, if it says one.
pub fn parse(line: &[u8]) -> Option<Call>
    ensures { MatchOption result ((c : Call) → Says line.now c → ⊥) (λ c. Says line.now c) }
{
    if let Some(text) = behind(line, b"start ") {
        let (piece, route) = two_numbers(text)?;
        return Some(Call::Start(piece, route));
    }
    if let Some(text) = behind(line, b"move ") {
        let (piece, position) = two_numbers(text)?;
        return Some(Call::Move(piece, position));
    }
    if let Some(text) = behind(line, b"leave ") {
        let piece = number(text)?;
        return Some(Call::Leave(piece));
    }
    (line == b"clear".as_slice()).then_some(Call::Clear)
}
