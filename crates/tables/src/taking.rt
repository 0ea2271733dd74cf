// Memory is taken once, before anything is read.
ghost use Rattle.std.specs.Prelude.{◌≡◌, [], IfOk};

use crate::reserve::{Reserve, ShowReserve, VenueReserve};
use std::alloc::{AllocError, Global};

impl Reserve {
    // Memory for the largest pair of files; the one failure is want of memory.
    pub fn take(heap: Global) -> Result<Reserve, AllocError>
        ensures { IfOk result (λ s. (s.venue.resources.items ≡ []) × (s.show.routes.items ≡ []) × (s.show.positions.items ≡ [])) }
    {
        let resources = Vec::with_capacity(heap, 16)?;
        let routes = Vec::with_capacity(heap, 16)?;
        let positions = Vec::with_capacity(heap, 128)?;
        Ok(Reserve {
            venue: VenueReserve { resources },
            show: ShowReserve { routes, positions },
        })
    }
}
