// Reads a case from each line of standard input, a label and a pair of files, and says of each whether the pair is
// accepted, or what is wrong with it.
#![tactic(auto)]

use case_lines::case::files_of;
use case_lines::verdict::{Accepted, Refused};
use case_lines::written::length_told;
use fields::spot::Pair;
use files::pair::read;
use round_trip::back::{show_back, venue_back};
use std::io;
use std::io::{BufRead, BufReader};
use tables::reserve::Reserve;
use tables::tables::Tables;

// An accepted pair is also written back, and compared with its files.
fn answer_accepted(
    rt: &HostRuntime,
    label: &str,
    tables: &Tables,
    pair: Pair<'_>,
) -> io::Result<()> {
    let mut space = vec![in rt.alloc(); 0u8; pair.venue.len().max(pair.show.len())]?;
    let venue = venue_back(&tables.venue, pair.venue, space.as_mut_slice());
    let show = show_back(&tables.show, pair.show, space.as_mut_slice());
    println!(rt;
        "{label} {} written {} {}",
        Accepted::of(tables),
        length_told(venue),
        length_told(show)
    )
}

fn answer(rt: &HostRuntime, label: &str, pair: Pair<'_>) -> io::Result<()> {
    match read(Reserve::take(rt.alloc())?, pair) {
        Ok(tables) => answer_accepted(rt, label, &tables, pair),
        Err(fault) => println!(rt; "{label} {}", Refused::of(fault, pair)),
    }
}

fn answer_line(rt: &HostRuntime, line: &str) -> io::Result<()> {
    let (label, rest) = line.split_once(' ').unwrap_or((line, ""));
    match files_of(rt.alloc(), rest)? {
        Some(files) => answer(rt, label, files.pair()),
        None => println!(rt; "{label} bad"),
    }
}

fn main(rt: HostRuntime) -> io::Result<()> {
    for line in BufReader::new(rt.alloc(), rt.stdin())?.lines(rt.alloc()) {
        answer_line(&rt, line?.as_str())?;
    }
    Ok(())
}
