ghost use Rattle.std.specs.Prelude.{◌≡◌, true};
ghost use Rattle.tables.specs.Model.{counts_of, firsts_of, positions_of, starts};
ghost use Rattle.tables.specs.Valid.{valid_show};

use crate::position::Position;
use crate::route::Route;

// The routes of a show, and all its positions, route by route, each numbered from 0.
#[derive(Drop)]
pub struct Show {
    pub routes: Vec<Route>,
    pub positions: Vec<Position>,
    ghost valid: { valid_show (counts_of routes.items) (positions_of positions.items) ≡ true },
    ghost first: { firsts_of routes.items ≡ starts 0 (counts_of routes.items) },
}
