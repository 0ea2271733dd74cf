// A pair of files with its figures, worked out once.
ghost use Rattle.std.specs.Prelude.{◌≡◌, ℕ, ◌<◌, ◌≤◌, replicate, slice_index, slice_index_or};
ghost use Rattle.tables.specs.Plan.{plan, kinds, count};
ghost use Rattle.figures.specs.Way.{LengthsHeld, Filled};
ghost use Rattle.figures.specs.Claims.{LowestHeld, LowestOrders, made, claim_of, peak, of_resource, FiguresHeld, AmountsHeld, SettersHeld, PeaksHeld};
ghost use Rattle.figures.specs.Laws.{Laws};

use crate::claim::{Claim, ResourceFigures};
use crate::figure::{Figure, fill};
use crate::kinds::{Claims, Lengths, Lowest, Peaks};
use crate::reads::resource_count;
use tables::tables::Tables;

// A row of lengths and one of lowest orders: each is filled by the one scan, and a sheet copies one.
#[derive(Drop)]
pub struct Stage {
    pub tables: Tables,
    pub lengths: [u16; 128],
    pub lowest: [u16; 128],
    pub resources: [ResourceFigures; 16],
    ghost lengths_held: { LengthsHeld (plan tables) lengths },
    ghost lowest_held: { LowestHeld (plan tables) lowest },
    ghost amounts_held: { AmountsHeld (plan tables) resources },
    ghost setters_held: { SettersHeld (plan tables) resources },
    ghost peaks_held: { PeaksHeld (plan tables) resources },
}

// A row with the figure of each position.
fn row_of<F: Figure>(kind: &F, tables: &Tables, blank: F::Value) -> [F::Value; 128]
    requires { F.suits kind.now (plan tables.now) }
    ensures { Filled (plan tables.now) (F.ending kind.now (plan tables.now)) (F.leading kind.now (plan tables.now)) (replicate 128 blank) result }
{
    let mut row = [blank; 128];
    fill(kind, tables, &mut row);
    row
}

// Works out the claims on one resource in place, over the lowest orders of the positions.
fn fill_claims(resource: usize, tables: &Tables, lowest: &[u16; 128], row: &mut [Claim; 128])
    requires { LowestOrders (plan tables.now) lowest.now }
    ensures { (p : ℕ) → p < count (plan tables.now) → slice_index_or row.new p (made 0 0) ≡ claim_of (plan tables.now) resource p }
{
    fill(&Claims { resource, lowest }, tables, row);
}

// And its peak needs.
fn fill_peaks(resource: usize, tables: &Tables, row: &mut [u16; 128])
    ensures { (p : ℕ) → p < count (plan tables.now) → slice_index row.new p ≡ peak (plan tables.now) resource p }
{
    fill(&Peaks { resource }, tables, row);
}

// The figures of a resource that the venue has not: each position claims nothing of it, which it sets itself.
fn no_figures() -> ResourceFigures
    ensures claims { (p : ℕ) → p < 128 → slice_index_or result.claims p (made 0 0) ≡ made 0 p }
    ensures peaks { result.peaks ≡ replicate 128 0 }
{
    let mut claims = [Claim {
        amount: 0,
        position: 0,
    }; 128];
    for (p, claim) in claims.iter_mut().enumerate() {
        *claim = Claim {
            amount: 0,
            position: p as u16,
        };
    }
    ResourceFigures {
        claims,
        peaks: [0; 128],
    }
}

// Works out the figures of each resource that the venue has, and leaves those behind them.
fn fill_resources(tables: &Tables, lowest: &[u16; 128], rows: &mut [ResourceFigures; 16])
    requires { LowestOrders (plan tables.now) lowest.now }
    ensures held { (r : ℕ) → r < kinds (plan tables.now) → FiguresHeld (plan tables.now) r (of_resource rows.new r) }
    ensures rest { (r : ℕ) → kinds (plan tables.now) ≤ r → of_resource rows.new r ≡ of_resource rows.old r }
{
    let known = &mut rows[..resource_count(tables)];
    for (resource, row) in known.iter_mut().enumerate() {
        fill_claims(resource, tables, lowest, &mut row.claims);
        fill_peaks(resource, tables, &mut row.peaks);
    }
}

impl Stage {
    // Works out the figures of every position.
    pub fn prepare(tables: Tables) -> Stage
        ensures same { result.tables ≡ tables }
        ensures laws { Laws (plan result.tables) }
    {
        let lengths = row_of(&Lengths, &tables, 0);
        let lowest = row_of(&Lowest, &tables, 0);
        let mut resources = [no_figures(); 16];
        fill_resources(&tables, &lowest, &mut resources);
        Stage {
            tables,
            lengths,
            lowest,
            resources,
        }
    }
}
