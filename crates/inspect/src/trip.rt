// The tables written back: how long the files are, and whether they are the bytes that were read.
use fields::spot::Pair;
use refusals::TooShort;
use round_trip::back::{Back, show_back, venue_back};
use std::io;
use tables::tables::Tables;

fn print_back(rt: &HostRuntime, file: &str, back: Result<Back, TooShort>) -> io::Result<()> {
    match back {
        Ok(
            Back {
                length,
                differs: None,
            },
        ) => println!(rt; "{file} written back: {length} bytes, the same"),
        Ok(
            Back {
                length,
                differs: Some(place),
            },
        ) => println!(rt; "{file} written back: {length} bytes, others from {place} on"),
        Err(TooShort { needed }) => println!(rt; "{file} not written back: {needed} bytes needed"),
    }
}

pub fn print(rt: &HostRuntime, tables: &Tables, pair: Pair<'_>) -> io::Result<()> {
    let mut space = vec![in rt.alloc(); 0u8; pair.venue.len().max(pair.show.len())]?;
    println!(rt; "")?;
    print_back(
        rt,
        "venue",
        venue_back(&tables.venue, pair.venue, space.as_mut_slice()),
    )?;
    print_back(
        rt,
        "show",
        show_back(&tables.show, pair.show, space.as_mut_slice()),
    )
}
