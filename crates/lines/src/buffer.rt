// A line as it comes in, byte by byte, of any length.
ghost use Rattle.std.specs.Prelude.{ℕ, List, [], ◌∷◌, ◌++◌, MatchOption};
ghost use Rattle.history.specs.declared.calls.Call.{Call};
ghost use Rattle.lines.specs.Lines.{Says};
ghost use Rattle.lines.specs.Front.{Holds};

use crate::parse::parse;
use crate::pending::Pending;
use history::calls::Call;

impl Pending {
    // Nothing has come yet.
    pub fn empty() -> Pending
        ensures { Holds result [] }
    {
        Pending {
            bytes: [0; 18],
            count: 0,
        }
    }

    // Another byte of the line has come.
    pub fn push(&mut self, byte: u8)
        ensures { (line : List ℕ) → Holds self.old line → Holds self.new (line ++ byte ∷ []) }
    {
        if self.count < 18 {
            self.bytes[self.count] = byte;
            self.count += 1;
        }
    }

    // The call that the line says, if it says one.
    pub fn call(&self) -> Option<Call>
        ensures { (line : List ℕ) → Holds self.now line → MatchOption result ((c : Call) → Says line c → ⊥) (λ c. Says line c) }
    {
        parse(&self.bytes[0..self.count])
    }
}
