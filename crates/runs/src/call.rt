// The first-run and the next-run call.

ghost use Rattle.std.specs.Prelude.{◌≡◌, ◌≤◌, ◌<◌, length};
ghost use Rattle.circuit.specs.Circuit.{value_of};
ghost use Rattle.circuit.specs.Run.{values_in};
ghost use Rattle.circuit.specs.Answer.{answer_of};
ghost use Rattle.circuit.specs.Call.{circuit_of};
ghost use Rattle.runs.specs.Call.{first_call, next_call, left_by};
ghost use Rattle.runs.specs.Listed.{FirstAnswer, NextAnswer, ListedAnswer};
ghost use Rattle.runs.specs.Answer.{paper_of, run_answer};
ghost use Rattle.runs.specs.Inner.{roomy, Candidate, Seeks, Answers};

use crate::answer::RunAnswer;
use crate::candidates::{advance, few, first_unfit};
use crate::levels::{Leveled, SIGNAL_NUMBERS, by_level};
use crate::search::Levels;
use circuit::file::{CircuitFile, Constraints};
use circuit::reader::{CONSTRAINTS_MOST, Sizes};
use circuit::refusal::{Reason, Refusal};

// Refusal 30: a circuit whose runs are listed has at most that many candidates.
pub const CANDIDATES_MOST: u32 = 65536;

// So its runs have at most that many values: 3 to the power 11 is above 65,536.
pub const VALUES_MOST: usize = 10;

// The values of a run after the constant one, 0 past its end.
fn values_of(run: &[u32]) -> [u32; SIGNAL_NUMBERS]
    requires { length run.now < 11 }
    ensures { values_in result ≡ value_of run.now }
{
    let mut values = [0; SIGNAL_NUMBERS];
    values[0] = 1;
    values[1..=run.len()].copy_from_slice(run);
    values
}

// Refusal 30, and 31 for the length of the buffer for the answer.
#[tactic(auto, unfolding(crate::specs::Inner::roomy))]
fn check_room(sizes: Sizes, room: usize) -> Result<(), Refusal>
    ensures { answer_of result ≡ roomy sizes room }
{
    if !few(sizes.p, sizes.n) {
        return Err(Reason::Candidates.at(0));
    }
    if room != sizes.n as usize {
        return Err(Reason::RunBuffers.at(0));
    }
    Ok(())
}

// Writes the first run that satisfies the circuit, from a candidate on. Nothing is written before it is found. Whether there is one.
// Stays: the run goes to the buffer of the C interface, so that whether there is one is all that is left to answer.
fn seek(file: CircuitFile, mut values: [u32; SIGNAL_NUMBERS], answer: &mut [u32]) -> bool
    requires { (file.sizes.n ≤ 10) × (file.sizes.p ≤ 65536) × (length answer.old ≡ file.sizes.n)
        × Candidate file.sizes.p file.sizes.n (values_in values) }
    ensures { Seeks (circuit_of file.entry.bytes.now) (values_in values) answer.old result answer.new }
{
    let constraints = Constraints::new(file);
    // Stays: without a heap there is room for the most constraints.
    let mut order = [Leveled::NONE; CONSTRAINTS_MOST as usize];
    let m = file.sizes.m as usize;
    by_level(&constraints, &mut order[..m]);
    let levels = Levels::new(&constraints, &order[..m]);
    if !levels.search(&mut values) {
        return false;
    }
    answer.copy_from_slice(&values[1..=answer.len()]);
    true
}

// The first-run call: from the candidate of zeros. Whether a run was written.
fn first_on(circuit: &[u8], answer: &mut [u32]) -> Result<bool, Refusal>
    ensures { Answers (first_call circuit.now (length answer.old)) answer.old
        (paper_of (run_answer result) answer.new) answer.new }
{
    let file = CircuitFile::read(circuit)?;
    check_room(file.sizes, answer.len())?;
    Ok(seek(file, values_of(&[]), answer))
}

// The next-run call: from the candidate after the given run.
#[tactic(auto, using(crate::proofs::CallLaws::few_here))]
fn next_on(circuit: &[u8], run: &[u32], answer: &mut [u32]) -> Result<bool, Refusal>
    ensures { Answers (next_call circuit.now run.now (length answer.old)) answer.old
        (paper_of (run_answer result) answer.new) answer.new }
{
    let file = CircuitFile::read(circuit)?;
    let sizes = file.sizes;
    check_room(sizes, answer.len())?;
    if run.len() != sizes.n as usize {
        return Err(Reason::RunBuffers.at(0));
    }
    if let Some(unfit) = first_unfit(run, sizes.p) {
        return Err(Reason::RunBuffers.at(unfit as usize));
    }
    let mut values = values_of(run);
    if advance(&mut values, sizes.p, sizes.n, sizes.n).is_none() {
        return Ok(false);
    }
    Ok(seek(file, values, answer))
}

// The first-run call (rule 6.12): refusals 1 to 10, 30 and 31, or the first satisfying run written, or that there is none.
pub fn first_run(circuit: &[u8], answer: &mut [u32]) -> RunAnswer
    ensures answer { paper_of result answer.new ≡ first_call circuit.now (length answer.old) }
    ensures written { answer.new ≡ left_by (first_call circuit.now (length answer.old)) answer.old }
    ensures least { FirstAnswer circuit.now (length answer.old) (paper_of result answer.new) }
    ensures listed { ListedAnswer circuit.now (length answer.old) (paper_of result answer.new) }
{
    RunAnswer::from(first_on(circuit, answer))
}

// The next-run call (rule 6.13): refusals 1 to 10, 30 and 31, or the first satisfying run after the given one written, or that there is none.
// Stays: the parameters of the C interface.
pub fn next_run(circuit: &[u8], given: &[u32], answer: &mut [u32]) -> RunAnswer
    ensures answer { paper_of result answer.new
        ≡ next_call circuit.now given.now (length answer.old) }
    ensures written { answer.new
        ≡ left_by (next_call circuit.now given.now (length answer.old)) answer.old }
    ensures least { NextAnswer circuit.now given.now (length answer.old) (paper_of result answer.new) }
{
    RunAnswer::from(next_on(circuit, given, answer))
}
