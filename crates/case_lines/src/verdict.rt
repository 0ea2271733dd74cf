// What is said of a pair of files: it is printed in numbers.
ghost use Rattle.std.specs.Prelude.{◌≡◌, length, Some, vec_len};
ghost use Rattle.refusals.specs.Refusals.{number_of};
ghost use Rattle.faults.specs.Faults.{refusal_of, layer_of, spot_of, layer_number, number_of_file, offending_of};
ghost use Rattle.case_lines.specs.Lines.{accepted_line, refused_line};

use faults::fault::{Layer, file_number};
use faults::layers::FitFault;
use faults::offending::offending;
use fields::spot::{Pair, Spot};
use refusals::Refusal;
use std::fmt;
use tables::tables::Tables;

#[derive(Clone, Copy)]
pub struct Accepted {
    resources: usize,
    routes: usize,
    positions: usize,
}

#[derive(Clone, Copy)]
pub struct Refused {
    refusal: Refusal,
    layer: Layer,
    spot: Spot,
    // how long the offending field is
    part: usize,
}

impl Accepted {
    pub fn of(tables: &Tables) -> Accepted
        ensures resources { result.resources ≡ vec_len tables.now.venue.resources }
        ensures routes { result.routes ≡ vec_len tables.now.show.routes }
        ensures positions { result.positions ≡ vec_len tables.now.show.positions }
    {
        Accepted {
            resources: tables.resources().len(),
            routes: tables.routes().len(),
            positions: tables.positions().len(),
        }
    }
}

impl Refused {
    pub fn of(fault: FitFault, pair: Pair<'_>) -> Refused
        ensures refusal { result.refusal ≡ refusal_of fault }
        ensures layer { result.layer ≡ layer_of fault }
        ensures spot { result.spot ≡ spot_of fault }
        ensures part { result.part ≡ length (offending_of fault pair.entry.venue.now pair.entry.show.now) }
    {
        Refused {
            refusal: fault.refusal(),
            layer: fault.layer(),
            spot: fault.spot(),
            part: offending(fault, pair).len(),
        }
    }
}

impl fmt::Display for Accepted {
    ghost output = { λ a. Some (accepted_line a.resources a.routes a.positions) };

    fn fmt<W: fmt::Write>(&self, f: &mut fmt::Formatter<W>) -> fmt::Result {
        let Accepted {
            resources,
            routes,
            positions,
        } = *self;
        write!(f, "accepted {resources} {routes} {positions}")
    }
}

impl fmt::Display for Refused {
    ghost output = { λ f. Some (refused_line (number_of_file f.spot.file) (number_of f.refusal) (layer_number f.layer) f.spot.place f.spot.byte f.part) };

    fn fmt<W: fmt::Write>(&self, f: &mut fmt::Formatter<W>) -> fmt::Result {
        let Refused {
            refusal,
            layer,
            spot: Spot { file, place, byte },
            part,
        } = *self;
        let file = file_number(file);
        let number = u8::from(refusal);
        let layer = u8::from(layer);
        write!(f, "refused {file} {number} {layer} {place} {byte} {part}")
    }
}
