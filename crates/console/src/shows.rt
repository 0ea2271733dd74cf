// What the show has for a call.
ghost use Rattle.std.specs.Prelude.{◌≡◌, ◌<◌, ◌≤◌, [], Decides, MatchOption};
ghost use Rattle.std.specs.List.{ContainsAt as Has};
ghost use Rattle.tables.specs.Plan.{plan, routes, count, first, next};
ghost use Rattle.figures.specs.Placing.{stepped};

use figures::reads::main_next;
use rules::placing::OFF;
use tables::tables::Tables;

// The first position of a route, if there is such a route. The number that is called is a place in the table as it is.
pub(crate) fn first_of(tables: &Tables, route: u32) -> Option<u16>
    ensures { MatchOption result (routes (plan tables.now) ≤ route) (λ p. (route < routes (plan tables.now)) × (p ≡ first (plan tables.now) route) × (p < count (plan tables.now))) }
{
    tables.routes().get(route as usize).map(|found| found.first)
}

// A position, if it is a next position of p.
pub(crate) fn next_of(tables: &Tables, p: u16, position: u32) -> Option<u16>
    ensures { MatchOption result (Has (next (plan tables.now) p) position → ⊥) (λ q. Has (next (plan tables.now) p) position × (q ≡ position) × (q < count (plan tables.now))) }
{
    tables
        .nexts(usize::from(p))
        .iter()
        .find(|next| u32::from(**next) == position)
        .map(|next| u16::from(*next))
}

// Whether p is a last position.
pub(crate) fn is_last(tables: &Tables, p: u16) -> bool
    ensures { Decides result (next (plan tables.now) p ≡ []) }
{
    tables.nexts(usize::from(p)).is_empty()
}

// Where a step home leads from p: to its main next, which stays below 128, or OFF.
pub(crate) fn step_from(tables: &Tables, p: u16) -> u16
    ensures { result ≡ stepped (plan tables.now) p }
{
    main_next(tables, usize::from(p)).map_or(OFF, |next| next as u16)
}
