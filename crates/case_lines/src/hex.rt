// Bytes from lower-case hexadecimal.
ghost use Rattle.std.specs.Prelude.{IfOk, vec_items};
ghost use Rattle.std.specs.Option.{option_map};
ghost use Rattle.case_lines.specs.Hex.{Nibble, Byte, Reads, hex};

use std::alloc::{AllocError, Global};

// The case's digits are in lower case only.
fn nibble(digit: u8) -> Option<u8>
    ensures { Nibble digit result }
{
    match digit {
        b'0'..=b'9' => Some(digit - b'0'),
        b'a'..=b'f' => Some(digit - b'a' + 10),
        _ => None,
    }
}

fn byte(high: u8, low: u8) -> Option<u8>
    ensures { Byte high low result }
{
    Some(nibble(high)? * 16 + nibble(low)?)
}

// The bytes that a text stands for, or none where it is no such text: that is the value inside, so `?` does not hand it on.
pub fn decoded(heap: Global, text: &[u8]) -> Result<Option<Vec<u8>>, AllocError>
    ensures { IfOk result (λ o. Reads hex text.now (option_map vec_items o)) }
{
    let mut bytes = Vec::new(heap);
    let mut rest = text;
    while let [high, low, after @ ..] = rest {
        let Some(byte) = byte(*high, *low) else {
            return Ok(None);
        };
        bytes.push(byte)?;
        rest = after;
    }
    Ok(rest.is_empty().then_some(bytes))
}
