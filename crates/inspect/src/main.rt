// Prints the venue and the show of the folder that it is run in, `venue.bin` and `show.bin`, for a stage designer to
// read, or where they are refused, what is wrong with them.
#![tactic(auto)]

mod sheet;
mod trip;

use opening::open;
use std::io;
use tables::reserve::Reserve;
use texts::refused::refusal_text;

fn main(rt: HostRuntime) -> io::Result<()> {
    let heap = rt.alloc();
    let files = folder::files(&rt)?;
    match open(Reserve::take(heap)?, files.pair()) {
        Ok(stage) => {
            sheet::print(&rt, &stage)?;
            trip::print(&rt, &stage.tables, files.pair())
        }
        Err(fault) => rt.println(refusal_text(heap, fault)?),
    }
}
