// The search of the marks phase: the lowest unmarked target that some step marks, by the lowest kind, constraint and reference. What is kept of a
// constraint may be loose: a digits step whose reference isn't sought yet, which is a lower bound, cheap and often enough.

ghost use Rattle.std.specs.Prelude.{◌≡◌, ◌↔◌, IsTrue, None, ℕ, ◌≤◌, ◌<◌, length, get_or};
ghost use Rattle.circuit.specs.Circuit.{WellFormedConstraint};
ghost use Rattle.circuit.specs.Reader.{constraint_in};
ghost use Rattle.laws.specs.Problem.{given};
ghost use Rattle.laws.specs.Standing as laws;
ghost use Rattle.laws.specs.Solver.{first_adding};
ghost use Rattle.rules.specs.View.{bound_in, mark_in};
ghost use Rattle.rules.specs.Rows.{Row};
ghost use Rattle.rules.specs.Promise.{kind_of, view};
ghost use Rattle.solver.specs.Bounds.{key_in};
ghost use Rattle.solver.specs.Marks.{zero_at, First, mark_key, found_key, found_reference, ZeroStep, Known, IsKnown, MarkKeys, Looked, Passed};
ghost use Rattle.solver.specs.Choice.{choice_of};
ghost use Rattle.solver.specs.Table.{circuit_in, sizes_in};

use crate::keys::{Choice, Kept, Key, known};
use crate::search::{divisor_beside, lone_entry};
use crate::table::Table;
use circuit::reader::Sizes;
use rules::added::DigitTerms;
use rules::constraint::is_linear;
use rules::digits::{first_live, prepare, separates_at};
use rules::rows::Entry;
use rules::standing::{Kind, Standing};
use rules::view::{bound_at, mark_at};

// A step that marks, by a constraint that is known. A digits step without a reference is loose.
#[derive(Clone, Copy, Debug, PartialEq, Eq)]
pub(crate) struct Candidate {
    pub target: u32,
    pub kind: Kind,
    pub reference: Option<u16>,
}

impl Candidate {
    ghost use Rattle.solver.specs.Bounds.{key_in};
    ghost use Rattle.solver.specs.Marks.{mark_key};
    ghost use Rattle.laws.specs.Step as step;

    fn key(self) -> Key
        ensures { key_in result ≡ mark_key (kind_of self.kind) self.target }
    {
        mark_key(self.target, self.kind)
    }

    fn is_loose(self) -> bool
        ensures { IsTrue result ↔ ((kind_of self.kind ≡ step.Digits) × (self.reference ≡ None)) }
    {
        self.kind == Kind::Digits && self.reference.is_none()
    }
}

// The key of a step of this kind that marks the target.
fn mark_key(target: u32, kind: Kind) -> Key
    ensures { key_in result ≡ mark_key (kind_of kind) target }
{
    Key {
        bound: 0,
        target,
        kind,
    }
}

// Whether s is an unmarked signal with bound 0.
#[tactic(auto, unfolding(crate::specs::Marks::zero_at, laws::specs::Rules::zero_met))]
fn is_zero(standing: &Standing, p: u32, s: u32) -> bool
    ensures { result ≡ zero_at (bound_in p standing.now.bounds) (mark_in standing.now.marks) s }
{
    let s = s as usize;
    bound_at(&standing.bounds, s, p) == 0 && !mark_at(&standing.marks, s)
}

// The lowest unmarked signal with bound 0.
fn first_zero(standing: &Standing, sizes: Sizes) -> Option<u32>
    ensures { First (zero_at (bound_in sizes.p standing.now.bounds) (mark_in standing.now.marks)) sizes.n result }
{
    (1..=sizes.n).find(|s| is_zero(standing, sizes.p, *s))
}

// The first zero step, which names no constraint.
fn zero_step(standing: &Standing, sizes: Sizes) -> Option<Choice>
    ensures { ZeroStep sizes.n (bound_in sizes.p standing.now.bounds) (mark_in standing.now.marks) result }
{
    let target = first_zero(standing, sizes)?;
    Some(Choice {
        key: mark_key(target, Kind::Zero),
        constraint: 0,
        reference: 0,
    })
}

// The step of a constraint, loose if it is linear: at the lowest unmarked signal with a coefficient. Another has at most one step, product or quotient, at
// the one unmarked signal. Not inlined, since it is called where nothing is known of a constraint, and the search is mostly among those that are.
#[inline(never)]
fn low_step(part: &[u8], row: &[Entry], marks: &[bool], nonzeros: &[bool]) -> Option<Candidate>
    ensures { (p n : ℕ) (b : ℕ → ℕ) → 0 < p → WellFormedConstraint n p (constraint_in part.now)
        → Row p n (constraint_in part.now) row.now
        → Known p n (constraint_in part.now) b (mark_in marks.now) (mark_in nonzeros.now) (found_key result) (found_reference result) }
{
    if is_linear(part) {
        let lowest = first_live(row, marks)?;
        return Some(Candidate {
            target: lowest,
            kind: Kind::Digits,
            reference: None,
        });
    }
    let lone = lone_entry(row, marks)?;
    let target = u32::from(lone.signal);
    if lone.forms == Entry::IN_C {
        return Some(Candidate {
            target,
            kind: Kind::Product,
            reference: None,
        });
    }
    let divisor = divisor_beside(part, lone.forms, nonzeros)?;
    Some(Candidate {
        target,
        kind: Kind::Quotient,
        reference: Some(divisor),
    })
}

// Whether what is kept of constraint k gives no step below the lowest so far. The search asks this first, by just what tells: in each turn it is so of most
// constraints.
fn is_passed(kept: &[Kept<Candidate>; 513], k: u32, lowest: Option<Choice>) -> bool
    requires { k < 513 }
    ensures { IsTrue result → Passed lowest (get_or kept.now k None) }
{
    let Some(known) = kept[k as usize] else {
        return false;
    };
    let Some(candidate) = known else {
        return true;
    };
    !candidate.key().is_below(lowest)
}

// What is known of constraint k. Where nothing was: a loose step if it is linear, else its product or quotient step, or none.
fn look_at(
    table: &Table,
    marks: &[bool],
    nonzeros: &[bool],
    kept: &mut [Kept<Candidate>; 513],
    k: u32,
) -> Option<Candidate>
    requires { (1 ≤ k) × (k ≤ (sizes_in table.now).m) }
    ensures { (b : ℕ → ℕ) → MarkKeys (circuit_in table.now) b (mark_in marks.now) (mark_in nonzeros.now) kept.old
        → Looked (circuit_in table.now) b (mark_in marks.now) (mark_in nonzeros.now) k result kept.old kept.new }
{
    known(
        kept,
        k,
        ||
            ensures { 1 ≤ k → k ≤ (sizes_in table.entry.now).m → (b : ℕ → ℕ) → IsKnown (circuit_in table.entry.now) b (mark_in marks.entry.now)
                (mark_in nonzeros.entry.now) k result }
        { low_step(table.part(k), table.row(k), marks, nonzeros) },
    )
}

// The step of the first place with the lowest key: that of a constraint, or the zero step. Where a key is loose and below those before, its references
// are searched, up to the first whose step meets its rule.
// Stays: nested loops over constraints and references, left by a label, and so over 40 lines, are a form of docs/DECISIONS.md; and `passed + 1`, as in
// `least_key`.
pub(crate) fn lowest_key(
    table: &Table,
    standing: &Standing,
    kept: &mut [Kept<Candidate>; 513],
) -> Option<Choice>
    requires { MarkKeys (circuit_in table.now) (bound_in (sizes_in table.now).p standing.now.bounds) (mark_in standing.now.marks)
        (mark_in standing.now.nonzeros) kept.old }
    ensures known { MarkKeys (circuit_in table.now) (bound_in (sizes_in table.now).p standing.now.bounds) (mark_in standing.now.marks)
        (mark_in standing.now.nonzeros) kept.new }
    ensures chosen { (f : ℕ → ℕ) → choice_of result
        ≡ first_adding laws.marks (given (circuit_in table.now) f) (view (sizes_in table.now).p standing.now) }
{
    let sizes = table.constraints.file.sizes;
    let marks = &standing.marks;
    let mut lowest = zero_step(standing, sizes);
    let mut room = DigitTerms::NONE;
    'constraints: for passed in 0..sizes.m {
        let k = passed + 1;
        let place = k as usize;
        if is_passed(kept, k, lowest) {
            continue;
        }
        let Some(candidate) = look_at(table, marks, &standing.nonzeros, kept, k) else {
            continue;
        };
        let key = candidate.key();
        if !key.is_below(lowest) {
            continue;
        }
        if !candidate.is_loose() {
            lowest = Some(Choice {
                key,
                constraint: k,
                reference: candidate.reference.unwrap_or(0),
            });
            continue;
        }
        let row = table.row(k);
        let Some(few) = prepare(row, &standing.bounds, marks, sizes.p) else {
            kept[place] = Some(None);
            continue;
        };
        for i in 1..row.len() {
            if separates_at(row, &standing.bounds, marks, &few, sizes.p, i, &mut room) {
                let reference = row[i].signal;
                kept[place] = Some(Some(Candidate {
                    reference: Some(reference),
                    ..candidate
                }));
                lowest = Some(Choice {
                    key,
                    constraint: k,
                    reference,
                });
                continue 'constraints;
            }
        }
        kept[place] = Some(None);
    }
    lowest
}
