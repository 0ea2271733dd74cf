// What may come next.
ghost use Rattle.std.specs.Prelude.{◌≡◌, if◌then◌else◌, nat_eq};

use fields::field::Turn;

// The first turn where nothing has come yet, and else the other.
pub(crate) fn turn_after(count: usize, first: Turn, more: Turn) -> Turn
    ensures { result ≡ (if nat_eq count 0 then first else more) }
{
    if count == 0 { first } else { more }
}
