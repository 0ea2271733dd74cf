// The claims of a position.
ghost use Rattle.std.specs.Prelude.{IfOk};
ghost use Rattle.tables.specs.Plan.{plan};
ghost use Rattle.texts.specs.Texts.{ClaimsAt};

use figures::claim::Claim;
use figures::reads::resource_count;
use figures::stage::Stage;
use std::alloc::{AllocError, Global};

// The claims of a position, by resource.
pub fn claims_at(heap: Global, stage: &Stage, p: u16) -> Result<Vec<Claim>, AllocError>
    ensures { IfOk result (λ v. ClaimsAt (plan stage.now.tables) p v.items) }
{
    (0..resource_count(&stage.tables))
        .map(|resource| stage.claim(resource, p))
        .collect(heap)
}
