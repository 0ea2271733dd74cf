// A figure for every position of a show, for any kind of figure.
ghost use Rattle.std.specs.Prelude.{◌≡◌, ℕ, ◌<◌, ◌≤◌, length, None};
ghost use Rattle.tables.specs.Plan.{Plan, plan, count};
ghost use Rattle.figures.specs.Way.{main, AtNext, Filled};

use crate::reads::{main_next, position_count};
use tables::tables::Tables;

// A kind of figure: its value at a last position, and before a known main next. A kind is of no one show, so each question is handed tables and position.
pub trait Figure {
    type Value: Copy;

    // whether the kind can be asked of the show
    ghost suits: { Self → Plan → Type 0 };

    ghost ending: { Self → Plan → ℕ → Self.Value };

    ghost leading: { Self → Plan → ℕ → Self.Value → Self.Value };

    fn last(&self, tables: &Tables, p: usize) -> Self::Value
        requires suits { suits self.now (plan tables.now) }
        requires within { p < count (plan tables.now) }
        requires last { main (plan tables.now) p ≡ None }
        ensures { result ≡ ending self.now (plan tables.now) p };

    fn before(&self, tables: &Tables, p: usize, next: Self::Value) -> Self::Value
        requires suits { suits self.now (plan tables.now) }
        requires within { p < count (plan tables.now) }
        requires known { AtNext (plan tables.now) (ending self.now (plan tables.now)) (leading self.now (plan tables.now)) p next }
        ensures { result ≡ leading self.now (plan tables.now) p next };
}

// Works back from the last position, and leaves the row's entries past it. By index, since it reads the main next's entry of the row that it writes.
pub fn fill<F: Figure>(kind: &F, tables: &Tables, row: &mut [F::Value])
    requires suits { F.suits kind.now (plan tables.now) }
    requires long { count (plan tables.now) ≤ length row.old }
    ensures { Filled (plan tables.now) (F.ending kind.now (plan tables.now)) (F.leading kind.now (plan tables.now)) row.old row.new }
{
    for p in (0..position_count(tables)).rev() {
        row[p] = match main_next(tables, p) {
            Some(q) => kind.before(tables, p, row[q]),
            None => kind.last(tables, p),
        };
    }
}
