// The needs of a position: three bytes each, resource number and amount.
ghost use Rattle.std.specs.Prelude.{◌≡◌, ℕ, suc, ◌+◌, Bool, ◌∷◌};
ghost use Rattle.layout.specs.Rules.{lacks, exceeds, row_of_needs, some, needs_in};
ghost use Rattle.files.specs.Steps.{Tests};

use tables::reads::capacity_of;
use tables::resource::Resource;

// Whether a test holds of some need, given as resource number and amount.
fn some_need<T: Fn(u8, u16) -> bool>(needs: &[u8], test: T) -> bool
    requires { T.IsAlwaysCallable test }
    ensures { (p : ℕ × ℕ → Bool) → Tests p (T.post test) → result ≡ some p (needs_in needs.now) }
{
    let mut left = needs;
    while let [number, high, low, more @ ..] = left {
        if test(*number, u16::from_be_bytes([*high, *low])) {
            return true;
        }
        left = more;
    }
    false
}

// Whether some need is of a resource that the venue has not.
pub fn some_lacking(resources: &[Resource], needs: &[u8]) -> bool
    ensures { result ≡ lacks resources.now needs.now }
{
    some_need(needs, |number, _| usize::from(number) >= resources.len())
}

// Whether some need is above its resource's capacity.
pub fn some_exceeding(resources: &[Resource], needs: &[u8]) -> bool
    ensures { result ≡ exceeds resources.now needs.now }
{
    some_need(
        needs,
        |number, amount| capacity_of(resources, usize::from(number)) < amount,
    )
}

// What the needs, of resource i or above, name for resource i, and the needs behind it.
fn need_of<'a>(i: usize, needs: &'a [u8]) -> (u16, &'a [u8])
    ensures { (n : ℕ) → row_of_needs (suc n) i needs.now ≡ result.0 ∷ row_of_needs n (i + 1) result.1.now }
{
    match needs {
        [number, high, low, more @ ..] if usize::from(*number) == i => {
            (u16::from_be_bytes([*high, *low]), more)
        }
        _ => (0, needs),
    }
}

// The needs by resource number.
pub fn need_row(needs: &[u8]) -> [u16; 16]
    ensures { result ≡ row_of_needs 16 0 needs.now }
{
    let mut row = [0; 16];
    let mut left = needs;
    for (i, amount) in row.iter_mut().enumerate() {
        (*amount, left) = need_of(i, left);
    }
    row
}
