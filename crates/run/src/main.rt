// Runs the venue and the show of the folder that it is run in, `venue.bin` and `show.bin`, under the ordered rule: it reads a call
// from each line of standard input and prints its answer and the distance home, or where the files are refused, what is wrong with them.
#![tactic(auto)]

use console::console::Console;
use lines::pending::Pending;
use opening::open;
use rules::ordered::OrderedRule;
use session::rows::row;
use session::session::answer_line;
use std::io;
use std::io::Read;
use tables::reserve::Reserve;
use texts::refused::refusal_text;

// The console, the line that is coming in, if any of it has come, and how many lines were answered.
#[derive(Drop)]
struct Run {
    console: Console<OrderedRule>,
    line: Option<Pending>,
    answered: u64,
}

impl Run {
    // Answers the line that has come.
    fn answer(&mut self, rt: &HostRuntime) -> io::Result<()> {
        let line = self.line.take().unwrap_or_else(Pending::empty);
        let shown = answer_line(&mut self.console, &line);
        self.answered = self.answered.saturating_add(1);
        rt.println(row(rt.alloc(), self.answered, shown)?)
    }

    fn take(&mut self, rt: &HostRuntime, bytes: &[u8]) -> io::Result<()> {
        for byte in bytes {
            if *byte == b'\n' {
                self.answer(rt)?;
            } else {
                self.line.get_or_insert_with(Pending::empty).push(*byte);
            }
        }
        Ok(())
    }
}

// Answers each line as it comes. A last line without a newline counts.
fn answer_lines(rt: &HostRuntime, mut run: Run) -> io::Result<()> {
    let mut input = rt.stdin();
    // a loop that waits for input takes a bound
    for _ in 0..u64::MAX {
        let mut chunk = [0u8; 4096];
        let count = input.read(&mut chunk)?;
        if count == 0 {
            break;
        }
        run.take(rt, &chunk[0..count])?;
    }
    if run.line.is_some() {
        run.answer(rt)?;
    }
    Ok(())
}

fn main(rt: HostRuntime) -> io::Result<()> {
    let heap = rt.alloc();
    let files = folder::files(&rt)?;
    let stage = match open(Reserve::take(heap)?, files.pair()) {
        Ok(stage) => stage,
        Err(fault) => return rt.println(refusal_text(heap, fault)?),
    };
    rt.println("line answer home")?;
    let run = Run {
        console: Console::begin(stage, OrderedRule),
        line: None,
        answered: 0,
    };
    answer_lines(&rt, run)
}
