// The phase of nonzero marks: in the order of targets, each by the first constraint by which the nonzero rule is met. That rule asks nothing of the
// standing, so the constraints are looked at once.

ghost use Rattle.std.specs.Prelude.{◌≡◌, ℕ, ◌≤◌};
ghost use Rattle.circuit.specs.Reader.{form_in, constraint_in};
ghost use Rattle.laws.specs.Problem.{given};
ghost use Rattle.laws.specs.Rules.{single, nonzero_met};
ghost use Rattle.rules.specs.Promise.{view};
ghost use Rattle.solver.specs.Nonzeros.{Noted, Firsts};
ghost use Rattle.solver.specs.Phases.{Excluded};
ghost use Rattle.solver.specs.Table.{circuit_in, sizes_in};

use crate::bounds::Phase;
use crate::keys::{Choice, Key};
use crate::table::Table;
use circuit::form::Forms;
use rules::form::{is_single, sole_signal};
use rules::standing::Kind;

// Notes constraint k at the signal of a form that is a single term, if none is noted there.
fn note(firsts: &mut [u16], form: &[u8], k: u16)
    ensures { Noted (λ s. single s (form_in form.now)) k firsts.old firsts.new }
{
    let Some(signal) = sole_signal(form) else {
        return;
    };
    let place = signal as usize;
    if place < firsts.len() && firsts[place] == 0 {
        firsts[place] = k;
    }
}

// Notes constraint k, which the part starts with, at each signal that is a target of its nonzero steps.
fn note_targets(firsts: &mut [u16], part: &[u8], k: u16)
    ensures { Noted (nonzero_met (constraint_in part.now)) k firsts.old firsts.new }
{
    let Forms { a, b, c } = Forms::of(part);
    if is_single(c, 0) {
        note(firsts, a, k);
        note(firsts, b, k);
    }
}

// For each signal the first constraint by which the nonzero rule is met, 0 where there is none.
fn first_constraints(table: &Table) -> [u16; 257]
    ensures { let C = circuit_in table.now in Firsts C C.m result }
{
    let mut firsts = [0; 257];
    for passed in 0..table.constraints.file.sizes.m {
        let k = passed + 1;
        note_targets(&mut firsts, table.part(k), k as u16);
    }
    firsts
}

// Gives nonzero marks until no step gives any, writes the steps after those of the phase before, and counts all. Not inlined, as the other phases aren't, so
// that its places leave the stack before the next.
#[inline(never)]
pub(crate) fn exclude_zeros(table: &Table, before: Phase, output: &mut [u8]) -> Phase
    requires { before.count ≤ (sizes_in table.now).n }
    ensures { (f : ℕ → ℕ) → Excluded (given (circuit_in table.now) f) (view (sizes_in table.now).p before.standing)
        (view (sizes_in table.now).p result.standing) output.old output.new before.count result.count }
{
    let firsts = first_constraints(table);
    let mut standing = before.standing;
    let mut count = before.count;
    for passed in 0..table.constraints.file.sizes.n {
        let target = passed + 1;
        let place = target as usize;
        let constraint = u32::from(firsts[place]);
        if constraint == 0 || standing.nonzeros[place] {
            continue;
        }
        let choice = Choice {
            key: Key {
                bound: 0,
                target,
                kind: Kind::Nonzero,
            },
            constraint,
            reference: 0,
        };
        table.take(&mut standing, choice, output, count);
        count += 1;
    }
    Phase { standing, count }
}
