// One step of a derivation: read from its bytes and its range tested, and what it looks at of the circuit: a part of the bytes and a row.

ghost use Rattle.std.specs.Prelude.{◌≡◌, ◌≤◌};
ghost use Rattle.laws.specs.Problem.{Problem, a_constraint};
ghost use Rattle.laws.specs.Step as laws;
ghost use Rattle.rules.specs.Promise.{kind_of};
ghost use Rattle.derivation.specs.Encoded.{step_bytes};
ghost use Rattle.derivation.specs.Steps.{read_step};
ghost use Rattle.derivation.specs.Inner.{step_in, step_found, Reads, Kept, Ready, part_named};

use crate::kinds::{entry_of, field_within, kind_of, within};
use crate::writer::derivation_size;
use circuit::bytes::{byte_at, u16_at};
use circuit::file::Constraints;
use circuit::offsets::part_of;
use circuit::reader::Sizes;
use circuit::refusal::{Reason, Refusal};
use rules::rows::{Entry, make_row};
use rules::standing::{Kind, reads_row};
use std::fmt;

// Rule 2.2: a step's fields.
#[derive(Clone, Copy, Debug, PartialEq, Eq)]
pub struct Step {
    pub kind: Kind,
    pub target: u16,
    pub constraint: u16,
    pub reference: u16,
}

impl Step {
    // The step as the bytes of a derivation.
    pub fn to_bytes(self) -> [u8; 7]
        ensures { result ≡ step_bytes (step_in self) }
    {
        let number = self.kind.number();
        let [target_low, target_high] = self.target.to_le_bytes();
        let [constraint_low, constraint_high] = self.constraint.to_le_bytes();
        let [reference_low, reference_high] = self.reference.to_le_bytes();
        [
            number,
            target_low,
            target_high,
            constraint_low,
            constraint_high,
            reference_low,
            reference_high,
        ]
    }

    // Step k of a derivation, counted from 0, where its kind is known. Bytes past the end count as 0, which is no kind.
    pub fn at(derivation: &[u8], k: u32) -> Option<Step>
        ensures { step_found result ≡ read_step derivation.now k }
    {
        let start = derivation_size(k);
        let kind = kind_of(byte_at(derivation, start) as u8)?;
        Some(Step {
            kind,
            target: u16_at(derivation, start + 1) as u16,
            constraint: u16_at(derivation, start + 3) as u16,
            reference: u16_at(derivation, start + 5) as u16,
        })
    }

    // The same with its fields in range: refusals 15 and 16 in this order, at the step's place.
    pub(crate) fn read(derivation: &[u8], k: u32, sizes: Sizes) -> Result<Step, Refusal>
        ensures { (P : Problem) → P.n ≡ sizes.n → P.m ≡ sizes.m → Reads P derivation.now k result }
    {
        let place = k as usize + 1;
        let step = Step::at(derivation, k).ok_or(Reason::StepKind.at(place))?;
        if !step.is_in_range(sizes) {
            return Err(Reason::StepField.at(place));
        }
        Ok(step)
    }

    // Rule 2.3: target, constraint and reference are in range.
    fn is_in_range(self, sizes: Sizes) -> bool
        ensures { (P : Problem) → P.n ≡ sizes.n → P.m ≡ sizes.m → result ≡ laws.in_range P (step_in self) }
    {
        let entry = entry_of(self.kind);
        let target = within(sizes.n, u32::from(self.target));
        let constraint = field_within(entry.names, sizes.m, u32::from(self.constraint));
        let reference = field_within(entry.refers, sizes.n, u32::from(self.reference));
        target & constraint & reference
    }
}

// The kind's word and the three numbers.
impl fmt::Display for Step {
    fn fmt<W: fmt::Write>(&self, f: &mut fmt::Formatter<W>) -> fmt::Result {
        let Step {
            kind,
            target,
            constraint,
            reference,
        } = self;
        write!(f, "{kind} {target} {constraint} {reference}")
    }
}

// The part of the circuit bytes that a step of this kind looks at; nothing where it names no constraint.
// Stays: bytes and table, since it is public and serves any, and a `Constraints` would ask more.
pub fn part_named<'a>(kind: Kind, circuit: &'a [u8], table: &[u32], k: u32) -> &'a [u8]
    ensures { result.now ≡ part_named (laws.names_of (kind_of kind)) circuit.now table.now k }
{
    if entry_of(kind).names {
        part_of(circuit, table, k)
    } else {
        &[]
    }
}

// Makes the row of constraint k, unless it is there, if a step of this kind names a constraint and looks at its row.
// Stays: constraints, ends and rows apart, since the kit proves no ghost field beside a lent slice that is written.
pub(crate) fn keep_row(
    kind: Kind,
    constraints: &Constraints,
    ends: &mut [u32],
    rows: &mut [Entry],
    k: u32,
)
    ensures { let c = constraints.now.file.bytes.now in let z = constraints.now.file.sizes in
        Kept c z constraints.now.offsets ends.old rows.old → (laws.names_of (kind_of kind) ≡ a_constraint → (1 ≤ k) × (k ≤ z.m))
        → Ready (kind_of kind) k c z constraints.now.offsets ends.new rows.new }
{
    if entry_of(kind).names && reads_row(kind) {
        let file = constraints.file;
        make_row(file.bytes, &constraints.offsets, ends, rows, file.sizes, k);
    }
}
