// The words that lines begin with.
ghost use Rattle.std.specs.Prelude.{◌≡◌, List, ℕ, ◌++◌, MatchOption, ◌≢◌};

// What stands behind a word at the front of a line.
pub(crate) fn behind<'a>(line: &'a [u8], word: &[u8]) -> Option<&'a [u8]>
    ensures { MatchOption result ((rest : List ℕ) → line.now ≢ word.now ++ rest) (λ rest. line.now ≡ word.now ++ rest.now) }
{
    line.strip_prefix(word)
}
