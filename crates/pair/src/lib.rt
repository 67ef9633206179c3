// The pair call: two runs of a circuit that share their inputs, obey the tags on them and differ at an output.

#![tactic(auto)]

ghost use Rattle.std.specs.Prelude.{◌≡◌, ◌+◌, ◌*◌, length, drop, OnOk};
ghost use Rattle.circuit.specs.Reader.{header_size, constraint_of};
ghost use Rattle.circuit.specs.Run.{values_in};
ghost use Rattle.circuit.specs.Runs.{value_size};
ghost use Rattle.circuit.specs.Answer.{answer_of, answer_by};
ghost use Rattle.tags.specs.Sheet.{sheet_of};
ghost use Rattle.pair.specs.Call.{pair_header, file_on, runs_on, pair_call};
ghost use Rattle.pair.specs.Exact.{Exact};
ghost use Rattle.pair.specs.Answer.{paper_of};

use circuit::bytes::u16_at;
use circuit::reader::{has_mark, has_version};
use circuit::refusal::{Reason, Refusal};
use circuit::run::value_of;
use circuit::runs::{VALUE_SIZE, copy_run, first_difference, first_large, first_unsatisfied};
use tags::tagged::Tagged;

// The letter P of a pair's mark, and the size of its header.
const PAIR_LETTER: u32 = b'P' as u32;

pub const PAIR_HEADER: usize = 7;

// The call's answer: a refusal's number and place, or the signal at which the runs differ.
// Stays: the paper's form is one enum per call, whose cases carry a refusal's number and place, or the result.
#[derive(Clone, Copy, Debug, PartialEq, Eq)]
pub enum PairAnswer {
    Refused { number: u32, place: usize },
    Accepted { q: u32 },
}

impl From<Result<u32, Refusal>> for PairAnswer {
    ghost from_gives = { λ found answer. paper_of answer ≡ answer_of found };

    fn from(found: Result<u32, Refusal>) -> PairAnswer {
        match found {
            Ok(q) => PairAnswer::Accepted { q },
            Err(refusal) => PairAnswer::Refused {
                number: refusal.number(),
                place: refusal.place,
            },
        }
    }
}

// Refusals 18 to 21, or q.
#[tactic(auto, using(circuit::proofs::FindLaws::asks), unfolding(crate::specs::Call::file_on))]
fn check_file(tagged: &Tagged, pair: &[u8]) -> Result<u32, Refusal>
    ensures answer { answer_of result ≡ file_on tagged.now.file.sizes pair.now }
    ensures long { OnOk result (length pair.now ≡ pair_header + 2 * value_size * tagged.now.file.sizes.n) }
{
    let sizes = tagged.file.sizes;
    if pair.len() < PAIR_HEADER || !has_mark(pair, PAIR_LETTER) {
        return Err(Reason::PairMark.at(0));
    }
    if !has_version(pair) {
        return Err(Reason::PairVersion.at(0));
    }
    if pair.len() != PAIR_HEADER + 2 * VALUE_SIZE * (sizes.n as usize) {
        return Err(Reason::PairFrame.at(0));
    }
    let q = u16_at(pair, 5);
    if q <= sizes.i || sizes.i + sizes.o < q {
        return Err(Reason::PairFrame.at(0));
    }
    if let Some(large) = first_large(&pair[PAIR_HEADER..], sizes.p, 2 * sizes.n) {
        return Err(Reason::PairValue.at(large as usize));
    }
    Ok(q)
}

// Refusals 22, 23, 28 and 24 of two runs. `all_inputs` is for the edits that ask the tags of other signals, whose like with the right ones is proved.
#[tactic(auto, using(circuit::proofs::FindLaws::asks, tags::proofs::Inputs::all_inputs), unfolding(crate::specs::Call::runs_on, circuit::specs::Runs::agree))]
fn check_runs(tagged: &Tagged, first: &[u32], second: &[u32], q: u32) -> Result<(), Refusal>
    ensures { answer_by (λ done. q) result
        ≡ runs_on tagged.now.file.sizes (sheet_of tagged.now.sheet.now) (constraint_of (drop header_size tagged.now.file.bytes.now))
        (values_in first.now) (values_in second.now) q }
{
    let sizes = tagged.file.sizes;
    let body = tagged.file.body();
    if let Some(in_first) = first_unsatisfied(body, first, sizes.p, sizes.m) {
        return Err(Reason::Unsatisfied.at(in_first as usize));
    }
    if let Some(in_second) = first_unsatisfied(body, second, sizes.p, sizes.m) {
        return Err(Reason::Unsatisfied.at(sizes.m as usize + in_second as usize));
    }
    if let Some(input) = first_difference(first, second, sizes.i) {
        return Err(Reason::InputsDiffer.at(input as usize));
    }
    if let Some(broken) = tagged.first_broken(first) {
        return Err(Reason::TagBroken.at(broken as usize));
    }
    if value_of(first, q) == value_of(second, q) {
        return Err(Reason::OutputAgrees.at(q as usize));
    }
    Ok(())
}

// The circuit's refusals 1 to 10, then the sheet's, 26 and 27, then 18 to 24 in reading order with 28 before 24, or q.
fn judged(circuit: &[u8], sheet: &[u8], pair: &[u8]) -> Result<u32, Refusal>
    ensures { answer_of result ≡ pair_call circuit.now sheet.now pair.now }
{
    let tagged = Tagged::read(circuit, sheet)?;
    let q = check_file(&tagged, pair)?;
    let n = tagged.file.sizes.n;
    let values = &pair[PAIR_HEADER..];
    let first = copy_run(values, n);
    let second = copy_run(&values[VALUE_SIZE * (n as usize)..], n);
    check_runs(&tagged, &first, &second, q)?;
    Ok(q)
}

// The pair call (rule 6.8).
// Stays: the parameters of the C interface, here and in `judged`.
pub fn check_pair(circuit: &[u8], sheet: &[u8], pair: &[u8]) -> PairAnswer
    ensures answer { paper_of result ≡ pair_call circuit.now sheet.now pair.now }
    ensures exact { Exact circuit.now sheet.now pair.now (paper_of result) }
{
    PairAnswer::from(judged(circuit, sheet, pair))
}
