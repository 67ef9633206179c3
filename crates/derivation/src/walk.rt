// A derivation's steps one after the other: the frame of the file, and the walk that takes each step on what the one before it gave.

ghost use Rattle.std.specs.Prelude.{◌≡◌, ◌&&◌, not, ◌≤◌, length, set, OnOk};
ghost use Rattle.circuit.specs.Reader.{read_circuit};
ghost use Rattle.circuit.specs.Answer.{Answer, answer_of, answer_by, and_then};
ghost use Rattle.circuit.specs.Call.{on_circuit, circuit_of};
ghost use Rattle.laws.specs.Standing as laws;
ghost use Rattle.rules.specs.Rows.{places};
ghost use Rattle.rules.specs.Promise.{view};
ghost use Rattle.tags.specs.Tag.{tagged};
ghost use Rattle.tags.specs.Sheet.{sheet_of};
ghost use Rattle.derivation.specs.Steps.{walked};
ghost use Rattle.derivation.specs.Call.{framed};
ghost use Rattle.derivation.specs.Inner.{padded_by, tagged_in, notes_of, Noted, Walks};

use crate::file::steps_told;
use crate::sheets::start_with;
use crate::step::{Step, keep_row, part_named};
use crate::writer::{HEAD_SIZE, derivation_size};
use circuit::file::{CircuitFile, Constraints};
use circuit::reader::{has_mark, has_version};
use circuit::refusal::{Reason, Refusal};
use rules::rows::{Entry, FEW_ENTRIES, MOST_ENTRIES, places, row_of};
use rules::standing::{Outcome, Standing};

// The letter D of a derivation's mark, and the most steps that it may have.
const DERIVATION_LETTER: u32 = b'D' as u32;

pub const STEPS_MOST: u32 = 4096;

// What becomes of idle steps: they are refused when a derivation is marked, and let pass when it is renewed.
#[derive(Clone, Copy, Debug, PartialEq, Eq)]
pub enum IdleSteps {
    Refused,
    LetPass,
}

impl IdleSteps {
    // Whether a step that is idle or not is refused.
    fn refuse(self, idle: bool) -> bool
        ensures { result ≡ (idle && not (padded_by self)) }
    {
        idle && self == IdleSteps::Refused
    }
}

// Refusals 11 to 13.
#[tactic(auto, unfolding(crate::specs::Call::framed))]
pub fn check_frame(derivation: &[u8]) -> Result<(), Refusal>
    ensures { (x : Answer laws.Standing) → and_then (answer_of result) (λ done. x) ≡ framed derivation.now x }
{
    if derivation.len() < HEAD_SIZE || !has_mark(derivation, DERIVATION_LETTER) {
        return Err(Reason::DerivationMark.at(0));
    }
    if !has_version(derivation) {
        return Err(Reason::DerivationVersion.at(0));
    }
    let count = steps_told(derivation);
    if STEPS_MOST < count || derivation.len() != derivation_size(count) {
        return Err(Reason::DerivationLength.at(0));
    }
    Ok(())
}

// Notes of a step whether it is idle, where there is room.
// Stays: a test and a store, since nothing is known of a slice's elements after its `get_mut`.
fn note(notes: &mut [bool], k: usize, idle: bool)
    ensures { notes.new ≡ set notes.old k idle }
{
    if k < notes.len() {
        notes[k] = idle;
    }
}

// All steps, from the standing that is lent on, which is then the one that they lead to, or stays if one is refused; of those before it is noted which are
// idle. Rows are made when a step looks at them. The step is called here, since a function that hands an `Outcome` on clears and copies it once more.
// Stays: notes and idle steps as parameters, here and in `walk_sized`, as at `walk_file`. And the standing, which is lent, since each function that handed
// it on by value would clear and copy its 1.5 kB.
fn walk(
    file: &CircuitFile,
    derivation: &[u8],
    rows: &mut [Entry],
    notes: &mut [bool],
    idle_steps: IdleSteps,
    standing: &mut Standing,
) -> Result<(), Refusal>
    requires { places (length file.now.bytes.now) file.now.sizes.m ≤ length rows.old }
    ensures { let p = file.now.sizes.p in Walks (padded_by idle_steps) file.now.bytes.now derivation.now
        (view p standing.old) notes.old (answer_of result) (view p standing.new) notes.new }
{
    let sizes = file.sizes;
    let constraints = Constraints::new(*file);
    let mut ends = [0u32; 513];
    let mut outcome = Outcome {
        next: *standing,
        idle: None,
    };
    let count = steps_told(derivation);
    for k in 0..count {
        let place = k as usize + 1;
        let step = Step::read(derivation, k, sizes)?;
        let target = u32::from(step.target);
        let named = u32::from(step.constraint);
        let reference = u32::from(step.reference);
        keep_row(step.kind, &constraints, &mut ends, rows, named);
        let part = part_named(step.kind, file.bytes, &constraints.offsets, named);
        let row = row_of(&constraints.offsets, &ends, rows, named);
        outcome = outcome
            .next
            .step(step.kind, part, row, sizes.p, target, reference);
        let idle = outcome.idle.ok_or(Reason::RuleUnmet.at(place))?;
        if idle_steps.refuse(idle) {
            return Err(Reason::IdleStep.at(place));
        }
        note(notes, k as usize, idle);
    }
    *standing = outcome.next;
    Ok(())
}

// The walk with rows of N entries.
fn walk_sized<const N: usize>(
    file: &CircuitFile,
    derivation: &[u8],
    notes: &mut [bool],
    idle_steps: IdleSteps,
    standing: &mut Standing,
) -> Result<(), Refusal>
    requires { (places (length file.now.bytes.now) file.now.sizes.m ≤ N) × (N ≤ MOST_ENTRIES) }
    ensures { let p = file.now.sizes.p in Walks (padded_by idle_steps) file.now.bytes.now derivation.now
        (view p standing.old) notes.old (answer_of result) (view p standing.new) notes.new }
{
    let mut rows = [Entry::NONE; N];
    walk(file, derivation, &mut rows, notes, idle_steps, standing)
}

// All steps, from the standing that is lent on, which is then the one that they lead to, or stays if one is refused. A small file gets a small array for its
// rows, since clearing a large one takes longer than a few steps. The derivation is lent as bytes, since `walk_all` serves any. Not inlined, so that what is
// refused before the steps doesn't take the rows' room on the stack, 84 kB.
// Stays: notes, which the marker lends none of, and `IdleSteps` for one walk of marker and renewal; a closure in place of both would carry its promise
// through three functions, and so is no plainer.
#[inline(never)]
pub fn walk_file(
    file: &CircuitFile,
    derivation: &[u8],
    notes: &mut [bool],
    idle_steps: IdleSteps,
    standing: &mut Standing,
) -> Result<(), Refusal>
    ensures { let p = file.now.sizes.p in Walks (padded_by idle_steps) file.now.bytes.now derivation.now
        (view p standing.old) notes.old (answer_of result) (view p standing.new) notes.new }
{
    if places(file.bytes.len(), file.sizes.m) <= FEW_ENTRIES {
        walk_sized::<FEW_ENTRIES>(file, derivation, notes, idle_steps, standing)
    } else {
        walk_sized::<MOST_ENTRIES>(file, derivation, notes, idle_steps, standing)
    }
}

// All steps from the start that a sheet gives, for callers who hold a circuit's bytes and no file of them: a circuit that is refused is refused here too.
pub fn walk_all(
    circuit: &[u8],
    sheet: &[u8],
    derivation: &[u8],
    notes: &mut [bool],
    idle_steps: IdleSteps,
) -> Result<Standing, Refusal>
    ensures way { answer_by (view (circuit_of circuit.now).p) result
        ≡ on_circuit (read_circuit circuit.now) (λ C. walked (padded_by idle_steps) (tagged C (sheet_of sheet.now)) derivation.now) }
    ensures noted { let P = tagged_in circuit.now sheet.now in
        OnOk result (Noted P (laws.start P) derivation.now (length notes.old) notes.new) }
    ensures written { notes.new ≡ notes_of (padded_by idle_steps) circuit.now sheet.now derivation.now notes.old }
{
    let file = CircuitFile::read(circuit)?;
    let mut standing = start_with(sheet, file.sizes.p, file.sizes.i);
    walk_file(&file, derivation, notes, idle_steps, &mut standing)?;
    Ok(standing)
}
