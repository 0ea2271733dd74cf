// What writing a file back came to.
ghost use Rattle.std.specs.Prelude.{◌≡◌};
ghost use Rattle.case_lines.specs.Lines.{length_of, length_told};

use refusals::TooShort;
use round_trip::back::Back;

// The length of a file that came back to the byte.
pub fn length_of(back: Result<Back, TooShort>) -> Option<usize>
    ensures { result ≡ length_of back }
{
    match back {
        Ok(
            Back {
                length,
                differs: None,
            },
        ) => Some(length),
        _ => None,
    }
}

// What a case's line has of it: 0 for a file that did not come back, since no file is empty.
pub fn length_told(back: Result<Back, TooShort>) -> usize
    ensures { result ≡ length_told back }
{
    length_of(back).unwrap_or(0)
}
