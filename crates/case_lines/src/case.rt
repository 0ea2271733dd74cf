// The files of a case, as its line has them.
ghost use Rattle.std.specs.Prelude.{ℕ, List, IfOk, vec_items};
ghost use Rattle.std.specs.Option.{option_map};
ghost use Rattle.case_lines.specs.Hex.{Cut, Halves, Reads, ReadsPair, spelling};

use crate::hex::decoded;
use fields::spot::Files;
use std::alloc::{AllocError, Global};

// A file in hexadecimal, or `-` for an empty one.
fn file_of(heap: Global, text: &str) -> Result<Option<Vec<u8>>, AllocError>
    ensures { IfOk result (λ o. Reads spelling text.now (option_map vec_items o)) }
{
    match text {
        "-" => Ok(Some(Vec::new(heap))),
        "" => Ok(None),
        _ => decoded(heap, text.as_bytes()),
    }
}

// The texts before and behind the first space.
fn halves(text: &str) -> Option<(&str, &str)>
    ensures { Halves text.now (option_map (λ p. (p.0.now, p.1.now)) result) }
{
    text.split_once(' ')
}

fn pair_of(heap: Global, venue: &str, show: &str) -> Result<Option<Files>, AllocError>
    ensures { (text : List ℕ) → Cut text venue.now show.now → IfOk result (λ o. ReadsPair text (option_map (λ f. (f.venue.items, f.show.items)) o)) }
{
    // A show behind no venue is not looked at, and takes no memory.
    let Some(venue) = file_of(heap, venue)? else {
        return Ok(None);
    };
    Ok(file_of(heap, show)?.map(|show| Files { venue, show }))
}

// The venue file, a space, and the show file. A text without a space is no want of memory, so `?` does not hand it on.
pub fn files_of(heap: Global, text: &str) -> Result<Option<Files>, AllocError>
    ensures { IfOk result (λ o. ReadsPair text.now (option_map (λ f. (f.venue.items, f.show.items)) o)) }
{
    match halves(text) {
        Some((venue, show)) => pair_of(heap, venue, show),
        None => Ok(None),
    }
}
