// Placings: a number for each of 64 pieces, its position, or OFF.
ghost use Rattle.std.specs.Prelude.{◌≡◌, MatchOption, Decides};
ghost use Rattle.tables.specs.Plan.{plan};
ghost use Rattle.rules.specs.Placing.{Placed, Formed, on_count};

use figures::reads::position_count;
use tables::tables::Tables;

pub const PIECES: usize = 64;

// The number of a piece that is off: a placing is lent as plain numbers, with this one for none.
pub const OFF: u16 = 65535;

// Whether each number is a position or OFF.
fn all_placed(tables: &Tables, placing: &[u16]) -> bool
    ensures { Decides result (Placed (plan tables.now) placing.now) }
{
    let count = position_count(tables);
    placing.iter().all(|p| *p == OFF || usize::from(*p) < count)
}

// The placing that a list of numbers is, if it is one.
pub fn formed<'a>(tables: &Tables, numbers: &'a [u16]) -> Option<&'a [u16; PIECES]>
    ensures { MatchOption result (Formed (plan tables.now) numbers.entry.now → ⊥) (λ w. (w.now ≡ numbers.entry.now) × Formed (plan tables.now) numbers.entry.now) }
{
    numbers
        .as_array::<PIECES>()
        .filter(|_| well_formed(tables, numbers))
}

// Whether a list of numbers is a placing.
pub fn well_formed(tables: &Tables, placing: &[u16]) -> bool
    ensures { Decides result (Formed (plan tables.now) placing.now) }
{
    placing.len() == PIECES && all_placed(tables, placing)
}

// How many pieces are on.
pub fn pieces_on(placing: &[u16]) -> usize
    ensures { result ≡ on_count placing.now }
{
    placing.iter().map(|p| usize::from(*p != OFF)).sum()
}
