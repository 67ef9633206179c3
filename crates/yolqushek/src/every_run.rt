// Every satisfying run of a circuit: the first-run call, then the next-run call to the end, a line for each run.

use crate::failure::Failure;
use crate::listing::{Refused, Run};
use crate::text::{Pages, print, told};
use circuit::file::CircuitFile;
use runs::answer::RunAnswer;
use runs::call::{CANDIDATES_MOST, first_run, next_run};
use std::io;
use std::io::Write;
use std::mem::swap;

// Prints every run and how many there are, or the refusal. The call is lent as many values as the circuit has signals, and none where it is no circuit: that
// it refuses before it looks at the length.
pub(crate) fn print_runs(rt: HostRuntime, circuit: &[u8]) -> Result<(), Failure<'static>> {
    let signals = CircuitFile::read(circuit).map_or(0, |file| file.sizes.n as usize);
    let mut run = vec![in rt.alloc(); 0; signals]?;
    let first = first_run(circuit, &mut run);
    match first {
        RunAnswer::Refused { number, place } => print(rt, Refused { number, place }),
        RunAnswer::Written | RunAnswer::NoMore => told(print_from(rt, circuit, first, run)),
    }
}

// The runs from the first on, if one was written, and their count. No call refuses after the first didn't: each is given a run that the one before wrote.
fn print_from(
    rt: HostRuntime,
    circuit: &[u8],
    first: RunAnswer,
    mut run: Vec<u32>,
) -> io::Result<()> {
    let mut pages = Pages::new(rt.alloc(), rt.stdout());
    let mut next = run.clone()?;
    let mut answer = first;
    let mut count = 0;
    // Stays: a range that breaks, since that the runs end is shown by their number; a `while let` would need the order of runs for it, and count by hand.
    for k in 0..CANDIDATES_MOST {
        let RunAnswer::Written = answer else { break };
        writeln!(pages, "{}", Run(&run))?;
        answer = next_run(circuit, &run, &mut next);
        swap(&mut run, &mut next);
        count = k + 1;
    }
    writeln!(pages, "runs {count}")?;
    pages.flush()
}
