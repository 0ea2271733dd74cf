// What the pieces on hold of each resource, kept up while pieces are taken off.
ghost use Rattle.std.specs.Prelude.{ℕ, ◌<◌, ◌≤◌, Decides, slice_index};
ghost use Rattle.tables.specs.Plan.{plan, kinds, need};
ghost use Rattle.home_order.specs.Sums.{SumsOf, PeaksFit, Less};

use figures::reads::resource_count;
use figures::stage::Stage;
use rules::holdings::held;

pub(crate) fn sums_of(stage: &Stage, placing: &[u16; 64]) -> [u32; 16]
    ensures { SumsOf (plan stage.now.tables) placing.now result }
{
    let mut sums = [0; 16];
    let known = &mut sums[..resource_count(&stage.tables)];
    for (resource, sum) in known.iter_mut().enumerate() {
        *sum = held(stage, resource, placing);
    }
    sums
}

// Whether a piece at p can go its whole way home beside the others.
pub(crate) fn peaks_fit(stage: &Stage, sums: &[u32; 16], p: u16) -> bool
    ensures { Decides result (PeaksFit (plan stage.now.tables) sums.now p) }
{
    let known = &sums[..resource_count(&stage.tables)];
    known.iter().enumerate().all(|(resource, sum)| {
        let most = u64::from(*sum) + u64::from(stage.peak(resource, p));
        let room = u64::from(stage.tables.capacity(resource))
            + u64::from(stage.tables.need(usize::from(p), resource));
        most <= room
    })
}

// Takes the needs of p from the sums.
pub(crate) fn take_off(stage: &Stage, sums: &mut [u32; 16], p: u16)
    requires { (r : ℕ) → r < kinds (plan stage.now.tables) → need (plan stage.now.tables) p r ≤ slice_index sums.old r }
    ensures { Less (plan stage.now.tables) p sums.old sums.new }
{
    let known = &mut sums[..resource_count(&stage.tables)];
    for (resource, sum) in known.iter_mut().enumerate() {
        *sum -= u32::from(stage.tables.need(usize::from(p), resource));
    }
}
