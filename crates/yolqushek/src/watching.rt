// Recorded runs of any length: a file of them is read in parts, each of which goes to the watching call, and their answers make that of the whole file.

use crate::failure::Failure;
use crate::files::Input;
use circuit::file::CircuitFile;
use circuit::refusal::Reason;
use circuit::runs::VALUE_SIZE;
use pair::PAIR_HEADER;
use records::answer::{WatchAnswer, Watched};
use records::call::{WINDOW_MOST, watch};
use std::mem::swap;

// How many records a part has, and how many of them the next part doesn't have again: it begins with the last 255, which the widest window may reach.
const PART: usize = 4096;

const PASSED: usize = PART - (WINDOW_MOST as usize - 1);

// More parts than a file can have: each passes 15,364 bytes at least, and a file has fewer than 2^63.
const PARTS_MOST: usize = 1 << 50;

// What the watching call answers of all records of a file, and the pair file where a pair is found.
#[derive(Debug, Drop, PartialEq, Eq)]
pub struct Watch {
    pub(crate) answer: WatchAnswer,
    pub(crate) pair: Vec<u8>,
}

// What all records of a file come to. Where the circuit is refused none of them is read.
pub(crate) fn watch_file<'a>(
    rt: HostRuntime,
    circuit: &[u8],
    records: &Input<'a>,
    window: u32,
) -> Result<Watch, Failure<'a>> {
    match CircuitFile::read(circuit) {
        Ok(file) => watch_parts(rt, file, records, window),
        Err(refusal) => Ok(Watch {
            answer: WatchAnswer::from(Err(refusal)),
            pair: Vec::new(rt.alloc()),
        }),
    }
}

// Reads the file to its end, which decides whether its records are whole.
fn watch_parts<'a>(
    rt: HostRuntime,
    circuit: CircuitFile,
    records: &Input<'a>,
    window: u32,
) -> Result<Watch, Failure<'a>> {
    let size = VALUE_SIZE * circuit.sizes.n as usize;
    let mut answer = WatchAnswer::NoPair;
    let mut pair = vec![in rt.alloc(); 0; PAIR_HEADER + 2 * size]?;
    let mut written = pair.clone()?;
    let mut part = Vec::new(rt.alloc());
    for k in 0..PARTS_MOST {
        let room = (PART * size).saturating_sub(part.len());
        records.read_on(room as u64, &mut part)?;
        let next = numbered(
            watch(circuit.bytes, &part, window, &mut written),
            k * PASSED,
        );
        if counts_before(next, answer) {
            answer = next;
            swap(&mut pair, &mut written);
        }
        if part.len() < PART * size {
            break;
        }
        part.drain(..PASSED * size);
    }
    Ok(Watch { answer, pair })
}

// The answer of a part that so many records come before, with the records' numbers in the file. No file has so many that a sum would be too large.
fn numbered(answer: WatchAnswer, before: usize) -> WatchAnswer {
    match answer {
        WatchAnswer::Refused { number, place } if number == Reason::RecordValue.number() => {
            WatchAnswer::Refused {
                number,
                place: before.saturating_add(place),
            }
        }
        WatchAnswer::Pair(Watched { q, earlier, later }) => WatchAnswer::Pair(Watched {
            q,
            earlier: before.saturating_add(earlier),
            later: before.saturating_add(later),
        }),
        _ => answer,
    }
}

// Whether the answer of a later part counts, and not that of the earlier ones: the first of the lowest refusal, or else the first pair. Only the last part can
// meet 32; 34 is the same for every part that meets neither 32 nor 33.
fn counts_before(later: WatchAnswer, earlier: WatchAnswer) -> bool {
    match (later, earlier) {
        (WatchAnswer::Refused { number, .. }, WatchAnswer::Refused { number: other, .. }) => {
            number < other
        }
        (WatchAnswer::Refused { .. }, _) => true,
        (WatchAnswer::Pair(_), WatchAnswer::NoPair) => true,
        _ => false,
    }
}
