// What a position shows by itself: its main next and its lowest order.
ghost use Rattle.std.specs.Prelude.{◌≡◌, ◌≤◌};
ghost use Rattle.tables.specs.Plan.{plan, count, kinds};
ghost use Rattle.figures.specs.Way.{main};
ghost use Rattle.figures.specs.Claims.{lowest};

use tables::tables::Tables;

pub fn position_count(tables: &Tables) -> usize
    ensures is { result ≡ count (plan tables.now) }
    ensures few { result ≤ 128 }
{
    tables.positions().len()
}

pub fn resource_count(tables: &Tables) -> usize
    ensures is { result ≡ kinds (plan tables.now) }
    ensures few { result ≤ 16 }
{
    tables.resources().len()
}

pub fn main_next(tables: &Tables, p: usize) -> Option<usize>
    ensures { result ≡ main (plan tables.now) p }
{
    tables.nexts(p).first().map(|q| usize::from(*q))
}

// The lowest order of a position that needs nothing: a number above every order, since orders are compared with it.
pub const NO_ORDER: u16 = 256;

// The least order among the resources that p needs.
pub fn lowest_order(tables: &Tables, p: usize) -> u16
    ensures { result ≡ lowest (plan tables.now) p }
{
    let mut least = NO_ORDER;
    for (r, resource) in tables.resources().iter().enumerate() {
        if tables.need(p, r) > 0 {
            least = least.min(u16::from(resource.order));
        }
    }
    least
}
