// The eight public calls for callers in other languages, which exports_c hands to C. The returned value holds a refusal's number and place, or q, or a length,
// or whether a run was written; lent memory is written only on a result that has something to hand over.
// Stays: the parameters and numbers of the calls, 0 for none among them, are those of the C interface.

#![tactic(auto)]

ghost use Rattle.std.specs.Prelude.{◌≡◌, List, ℕ, length};
ghost use Rattle.circuit.specs.Call.{circuit_call};
ghost use Rattle.derivation.specs.Answer.{judgement_in};
ghost use Rattle.derivation.specs.Call.{derivation_call, derivation_marks};
ghost use Rattle.pair.specs.Call.{pair_call};
ghost use Rattle.records.specs.Call.{watch_call, watch_output};
ghost use Rattle.renewal.specs.Call.{renewal_call, renewal_output};
ghost use Rattle.runs.specs.Answer.{paper_of};
ghost use Rattle.runs.specs.Call.{first_call, next_call, left_by};
ghost use Rattle.solver.specs.Call.{solver_call, solver_output};
ghost use Rattle.exports.specs.Answers.{read_returned, read_answer, pair_returned, judgement_numbers, mark_returned, mark_answer, solve_returned, solve_answer};
ghost use Rattle.exports.specs.Answers.{renew_returned, run_returned, watch_returned, watch_answer, returned as returned_value};

use circuit::reader::{CircuitAnswer, Sizes, check_circuit};
use derivation::answer::{DerivationAnswer, Judgement, Verdict};
use derivation::call::check_derivation;
use pair::{PairAnswer, check_pair};
use records::answer::{WatchAnswer, Watched};
use records::call::watch;
use renewal::answer::RenewalAnswer;
use renewal::call::renew;
use runs::answer::RunAnswer;
use runs::call::{first_run, next_run};
use solver::answer::{Solved, SolverAnswer};
use solver::call::solve;

// What one of the returned value's halves holds.
const HALF: u64 = 1 << 32;

// The returned value: the number in the high half, in the low half the place, q, a length, or 1 for a run.
fn returned(number: u32, low: usize) -> u64
    ensures { result ≡ returned_value number low }
{
    u64::from(number) * HALF + low as u64 % HALF
}

// Reads a circuit. `answer`: p, n, i, o and m.
pub fn yolqushek_read(circuit: &[u8], answer: &mut [u64; 5]) -> u64
    ensures returned { result ≡ read_returned (circuit_call circuit.now) }
    ensures answered { answer.new ≡ read_answer (circuit_call circuit.now) answer.old }
{
    match check_circuit(circuit) {
        CircuitAnswer::Refused { number, place } => returned(number, place),
        CircuitAnswer::Sizes(Sizes { p, n, i, o, m }) => {
            *answer = [
                u64::from(p),
                u64::from(n),
                u64::from(i),
                u64::from(o),
                u64::from(m),
            ];
            returned(0, 0)
        }
    }
}

// Judges a pair of runs with a sheet, and returns the signal q.
pub fn yolqushek_pair(circuit: &[u8], sheet: &[u8], pair: &[u8]) -> u64
    ensures { result ≡ pair_returned (pair_call circuit.now sheet.now pair.now) }
{
    match check_pair(circuit, sheet, pair) {
        PairAnswer::Refused { number, place } => returned(number, place),
        PairAnswer::Accepted { q } => returned(0, q as usize),
    }
}

// How many signals are marked, 1 for fixed and 0 for open, how many tags are shown, and the first that isn't, 0 where all are.
fn numbers_of(judgement: Judgement) -> [u64; 4]
    ensures { result ≡ judgement_numbers (judgement_in judgement) }
{
    let shown = judgement.shown;
    [
        u64::from(judgement.count),
        u64::from(judgement.verdict == Verdict::Fixed),
        u64::from(shown.count),
        u64::from(shown.missed.unwrap_or(0)),
    ]
}

// Judges a derivation with a sheet. `answer`: how many signals are marked, 1 for fixed and 0 for open, how many tags are shown, and the first that isn't.
// The marks go to `marks`.
pub fn yolqushek_mark(
    circuit: &[u8],
    sheet: &[u8],
    derivation: &[u8],
    marks: &mut [u8],
    answer: &mut [u64; 4],
) -> u64
    ensures returned { result
        ≡ mark_returned (derivation_call circuit.now sheet.now derivation.now (length marks.old)) }
    ensures answered { answer.new
        ≡ mark_answer (derivation_call circuit.now sheet.now derivation.now (length marks.old)) answer.old }
    ensures written { marks.new
        ≡ derivation_marks circuit.now sheet.now derivation.now marks.old }
{
    match check_derivation(circuit, sheet, derivation, marks) {
        DerivationAnswer::Refused { number, place } => returned(number, place),
        DerivationAnswer::Accepted(judgement) => {
            *answer = numbers_of(judgement);
            returned(0, 0)
        }
    }
}

// Solves a circuit with a sheet. `answer`: the same four numbers as of a derivation, and the derivation's length. The derivation goes to `output`.
pub fn yolqushek_solve(
    circuit: &[u8],
    sheet: &[u8],
    output: &mut [u8],
    answer: &mut [u64; 5],
) -> u64
    ensures returned { result ≡ solve_returned (solver_call circuit.now sheet.now (length output.old)) }
    ensures answered { answer.new
        ≡ solve_answer (solver_call circuit.now sheet.now (length output.old)) answer.old }
    ensures written { output.new ≡ solver_output circuit.now sheet.now output.old }
{
    match solve(circuit, sheet, output) {
        SolverAnswer::Refused { number, place } => returned(number, place),
        SolverAnswer::Solved(Solved { judgement, bytes }) => {
            let [count, verdict, shown, missed] = numbers_of(judgement);
            *answer = [count, verdict, shown, missed, bytes as u64];
            returned(0, 0)
        }
    }
}

// Renews a derivation with a sheet, and returns its new length. The renewed derivation goes to `output`.
pub fn yolqushek_renew(circuit: &[u8], sheet: &[u8], derivation: &[u8], output: &mut [u8]) -> u64
    ensures returned { result
        ≡ renew_returned (renewal_call circuit.now sheet.now derivation.now (length output.old)) }
    ensures written { output.new
        ≡ renewal_output circuit.now sheet.now derivation.now output.old }
{
    match renew(circuit, sheet, derivation, output) {
        RenewalAnswer::Refused { number, place } => returned(number, place),
        RenewalAnswer::Renewed { bytes } => returned(0, bytes),
    }
}

// Both calls that list runs answer alike, whatever is left in the buffer.
fn returned_run(answer: RunAnswer) -> u64
    ensures { (left : List ℕ) → result ≡ run_returned (paper_of answer left) }
{
    match answer {
        RunAnswer::Refused { number, place } => returned(number, place),
        RunAnswer::Written => returned(0, 1),
        RunAnswer::NoMore => returned(0, 0),
    }
}

// Writes the first satisfying run of a small circuit to `answer`, and returns 1; 0 where there is none.
pub fn yolqushek_first_run(circuit: &[u8], answer: &mut [u32]) -> u64
    ensures returned { result ≡ run_returned (first_call circuit.now (length answer.old)) }
    ensures written { answer.new ≡ left_by (first_call circuit.now (length answer.old)) answer.old }
{
    returned_run(first_run(circuit, answer))
}

// The same of the satisfying runs that the one in `given` comes before.
pub fn yolqushek_next_run(circuit: &[u8], given: &[u32], answer: &mut [u32]) -> u64
    ensures returned { result ≡ run_returned (next_call circuit.now given.now (length answer.old)) }
    ensures written { answer.new
        ≡ left_by (next_call circuit.now given.now (length answer.old)) answer.old }
{
    returned_run(next_run(circuit, given, answer))
}

// Watches recorded runs for a pair, and returns its signal q; 0 where there is none. `answer`: the numbers of the two records, the earlier and the later. The
// pair file goes to `output`.
pub fn yolqushek_watch(
    circuit: &[u8],
    records: &[u8],
    window: u32,
    output: &mut [u8],
    answer: &mut [u64; 2],
) -> u64
    ensures returned { result
        ≡ watch_returned (watch_call circuit.now records.now window (length output.old)) }
    ensures answered { answer.new
        ≡ watch_answer (watch_call circuit.now records.now window (length output.old)) answer.old }
    ensures written { output.new ≡ watch_output circuit.now records.now window output.old }
{
    match watch(circuit, records, window, output) {
        WatchAnswer::Refused { number, place } => returned(number, place),
        WatchAnswer::Pair(Watched { q, earlier, later }) => {
            *answer = [earlier as u64, later as u64];
            returned(0, q as usize)
        }
        WatchAnswer::NoPair => returned(0, 0),
    }
}
