// The watching call.

ghost use Rattle.std.specs.Prelude.{◌≡◌, ◌≤◌, ◌++◌, length, drop};
ghost use Rattle.circuit.specs.Answer.{answer_of};
ghost use Rattle.records.specs.Call.{window_of, allowed, pair_size, pair_file, watch_call, watch_output};
ghost use Rattle.records.specs.Watched.{WatchedAnswer, PairAccepted};
ghost use Rattle.records.specs.Answer.{paper_of};
ghost use Rattle.records.specs.Inner.{Placed};

use crate::answer::{WatchAnswer, Watched};
use crate::file::Records;
use crate::search::first_pair;
use circuit::file::CircuitFile;
use circuit::reader::file_start;
use circuit::refusal::{Reason, Refusal};
use pair::PAIR_HEADER;

// The widest window, and the one that 0 stands for.
pub const WINDOW_MOST: u32 = 256;

const WINDOW_DEFAULT: u32 = 64;

// The letter P of a pair's mark.
const PAIR_LETTER: u8 = b'P';

// The window that a number stands for.
#[tactic(auto, unfolding(crate::specs::Call::window_of))]
fn window_of(window: u32) -> u32
    ensures { result ≡ window_of window }
{
    if window == 0 { WINDOW_DEFAULT } else { window }
}

// Refusals 32 to 34.
#[tactic(auto, using(circuit::proofs::FindLaws::asks), unfolding(crate::specs::Call::allowed, crate::specs::Call::is_window))]
fn check_arguments(records: Records, window: u32, room: usize) -> Result<(), Refusal>
    ensures { answer_of result
        ≡ allowed records.entry.file.sizes records.entry.bytes.now window room }
{
    if records.bytes.len() % records.size() != 0 {
        return Err(Reason::RecordsLength.at(0));
    }
    if let Some(unfit) = records.first_unfit() {
        return Err(Reason::RecordValue.at(unfit));
    }
    if window == 1 || WINDOW_MOST < window {
        return Err(Reason::WatchArguments.at(0));
    }
    if room < PAIR_HEADER + 2 * records.size() {
        return Err(Reason::WatchArguments.at(0));
    }
    Ok(())
}

// Writes the pair file of two records.
fn write_pair(records: Records, pair: Watched, output: &mut [u8])
    requires placed { Placed records.file.sizes.n records.bytes.now pair }
    requires room { pair_size records.file.sizes.n ≤ length output.old }
    ensures { let n = records.entry.file.sizes.n in
        output.new ≡ pair_file n records.entry.bytes.now pair ++ drop (pair_size n) output.old }
{
    let size = records.size();
    output[..PAIR_HEADER].copy_from_slice(&file_start(PAIR_LETTER, pair.q as u16));
    output[PAIR_HEADER..PAIR_HEADER + size].copy_from_slice(&records.from(pair.earlier)[..size]);
    output[PAIR_HEADER + size..PAIR_HEADER + 2 * size].copy_from_slice(
        &records.from(pair.later)[..size],
    );
}

// The refusals in their order, then the search. Nothing is written before a pair is found.
fn watched(
    circuit: &[u8],
    records: &[u8],
    window: u32,
    output: &mut [u8],
) -> Result<Option<Watched>, Refusal>
    ensures { (answer_of result ≡ watch_call circuit.now records.now window (length output.old))
        × (output.new ≡ watch_output circuit.now records.now window output.old) }
{
    let file = CircuitFile::read(circuit)?;
    let records = Records {
        file,
        bytes: records,
    };
    check_arguments(records, window, output.len())?;
    let pair = first_pair(records, window_of(window) as usize);
    if let Some(found) = pair {
        write_pair(records, found, output);
    }
    Ok(pair)
}

// The watching call (rule 6.14): refusals 1 to 10 and 32 to 34, or the pair that was written, or that no two records make one.
// Stays: the parameters of the C interface, here and in `watched`.
pub fn watch(circuit: &[u8], records: &[u8], window: u32, output: &mut [u8]) -> WatchAnswer
    ensures answer { paper_of result
        ≡ watch_call circuit.now records.now window (length output.old) }
    ensures written { output.new ≡ watch_output circuit.now records.now window output.old }
    ensures first { WatchedAnswer circuit.now records.now window (length output.old) (paper_of result) }
    ensures accepted { PairAccepted circuit.now records.now (paper_of result) output.new }
{
    WatchAnswer::from(watched(circuit, records, window, output))
}
