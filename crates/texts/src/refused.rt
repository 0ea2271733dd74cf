// What is said of a pair that is refused.
ghost use Rattle.std.specs.Prelude.{◌≡◌, IfOk, string_bytes};
ghost use Rattle.refusals.specs.Refusals.{number_of};
ghost use Rattle.faults.specs.Faults.{refusal_of, spot_of, number_of_file};
ghost use Rattle.texts.specs.Texts.{text_of_refusal};

use faults::fault::file_number;
use faults::layers::FitFault;
use fields::spot::Spot;
use std::alloc::{AllocError, Global};

// The file, the number of the refusal, the place and the byte there.
pub fn refusal_text(heap: Global, fault: FitFault) -> Result<String, AllocError>
    ensures { IfOk result (λ s. string_bytes s ≡ text_of_refusal (number_of_file (spot_of fault).file) (number_of (refusal_of fault)) (spot_of fault).place (spot_of fault).byte) }
{
    let Spot { file, place, byte } = fault.spot();
    let file = file_number(file);
    let number = u8::from(fault.refusal());
    format!(in heap; "{file} {number} {place} {byte}")
}
