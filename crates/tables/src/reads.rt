// What later layers look up. Nothing is refused: of what there is not, there is 0.
ghost use Rattle.std.specs.Prelude.{◌≡◌, []};
ghost use Rattle.tables.specs.Valid.{capacity_at};
ghost use Rattle.tables.specs.Model.{nexts_of};
ghost use Rattle.tables.specs.Found.{part_or, nexts_at, needs_at};
ghost use Rattle.tables.specs.Plan.{plan, capacity, order, first, next, need};

use crate::position::Position;
use crate::resource::Resource;
use crate::route::Route;
use crate::tables::Tables;

// The position with a number, if there is one. Its parts are matched out of it below: what a closure makes of them is not seen through it.
fn position_at(positions: &[Position], p: usize) -> Option<&Position>
    ensures nexts { nexts_at positions.now p ≡ part_or result (λ x. nexts_of x.nexts) [] }
    ensures needs { needs_at positions.now p ≡ part_or result (λ x. x.needs) [] }
{
    positions.get(p)
}

// How much there is of a resource, 0 of one that there is not.
pub fn capacity_of(resources: &[Resource], r: usize) -> u16
    ensures { result ≡ capacity_at resources.now r }
{
    resources.get(r).map_or(0, |resource| resource.capacity)
}

// One line each: the tables and the parts differ.
impl Tables {
    pub fn resources(&self) -> &[Resource]
        ensures { result.now ≡ self.now.venue.resources.items }
    {
        self.venue.resources.as_slice()
    }

    pub fn routes(&self) -> &[Route]
        ensures { result.now ≡ self.now.show.routes.items }
    {
        self.show.routes.as_slice()
    }

    pub fn positions(&self) -> &[Position]
        ensures { result.now ≡ self.now.show.positions.items }
    {
        self.show.positions.as_slice()
    }

    pub fn capacity(&self, r: usize) -> u16
        ensures { result ≡ capacity (plan self.now) r }
    {
        capacity_of(self.resources(), r)
    }

    pub fn order(&self, r: usize) -> u8
        ensures { result ≡ order (plan self.now) r }
    {
        self.resources().get(r).map_or(0, |resource| resource.order)
    }

    // The first position of a route.
    pub fn first(&self, route: usize) -> u16
        ensures { result ≡ first (plan self.now) route }
    {
        self.routes().get(route).map_or(0, |found| found.first)
    }

    // The next positions of a position, as they were named.
    pub fn nexts(&self, p: usize) -> &[u8]
        ensures { result.now ≡ next (plan self.now) p }
    {
        match position_at(self.positions(), p) {
            Some(position) => position.nexts.as_slice(),
            None => &[],
        }
    }

    pub fn need(&self, p: usize, r: usize) -> u16
        ensures { result ≡ need (plan self.now) p r }
    {
        match position_at(self.positions(), p) {
            Some(position) => position.need(r),
            None => 0,
        }
    }
}
