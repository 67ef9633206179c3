// The bounds phase: of all steps that lower some bound the one with the smallest new bound, until none is left.
// Stays: that every bound is below p is a premise of contracts, here, in `keys`, in `call` and in `rules::sums`, and no type: p stands in the circuit.

ghost use Rattle.std.specs.Prelude.{◌≡◌, ℕ, ◌≤◌, ◌<◌};
ghost use Rattle.laws.specs.Problem.{given};
ghost use Rattle.laws.specs.Standing as laws;
ghost use Rattle.laws.specs.Solver.{best_bound};
ghost use Rattle.rules.specs.View.{bound_in};
ghost use Rattle.rules.specs.Promise.{view};
ghost use Rattle.solver.specs.Bounds.{Keys, SomeKeys, IsKeyOf, Found, Lower};
ghost use Rattle.solver.specs.Choice.{choice_of};
ghost use Rattle.solver.specs.Phases.{Lowered};
ghost use Rattle.solver.specs.Table.{circuit_in, sizes_in};

use crate::keys::{Choice, Kept, Key, key_by, known, nothing};
use crate::table::Table;
use rules::standing::Standing;

// What a phase leaves: the standing, and how many steps were taken up to its end.
#[derive(Clone, Copy, Debug, PartialEq, Eq)]
pub(crate) struct Phase {
    pub standing: Standing,
    pub count: u32,
}

// The key of constraint k, found where it isn't known.
fn known_key(table: &Table, bounds: &[u32], keys: &mut [Kept<Key>; 513], k: u32) -> Option<Key>
    requires { SomeKeys (circuit_in table.now) (bound_in (sizes_in table.now).p bounds.now) keys.old × (1 ≤ k) × (k ≤ (sizes_in table.now).m) }
    ensures { Found (circuit_in table.now) (bound_in (sizes_in table.now).p bounds.now) k result keys.old keys.new }
{
    known(
        keys,
        k,
        ||
            ensures { let b = bound_in (sizes_in table.entry.now).p bounds.entry.now in
                1 ≤ k → k ≤ (sizes_in table.entry.now).m → ((s : ℕ) → b s < (circuit_in table.entry.now).p) → IsKeyOf (circuit_in table.entry.now) b k result }
        {
            key_by(
                table.part(k),
                table.row(k),
                bounds,
                table.constraints.file.sizes.p,
            )
        },
    )
}

// The lower of the lowest step so far and that of constraint k, if it has a key.
#[tactic(auto, using(crate::specs::Bounds::no_step, crate::specs::Bounds::stays, crate::specs::Bounds::lowers))]
fn lower(lowest: Option<Choice>, key: Option<Key>, k: u32) -> Option<Choice>
    ensures { Lower lowest k key result }
{
    match key {
        Some(key) if key.is_below(lowest) => Some(Choice {
            key,
            constraint: k,
            reference: 0,
        }),
        _ => lowest,
    }
}

// The step of the first constraint with the least key, where one has a key; finds the keys that are not known.
// Stays: `passed + 1`. Tried: `1..=m` leaves by its last turn too, and then both clauses are shown twice.
fn least_key(table: &Table, bounds: &[u32], keys: &mut [Kept<Key>; 513]) -> Option<Choice>
    requires { SomeKeys (circuit_in table.now) (bound_in (sizes_in table.now).p bounds.now) keys.old }
    ensures known { Keys (circuit_in table.now) (bound_in (sizes_in table.now).p bounds.now) keys.new }
    ensures chosen { (f : ℕ → ℕ) (S : laws.Standing) → S.bound ≡ bound_in (sizes_in table.now).p bounds.now
        → choice_of result ≡ best_bound (given (circuit_in table.now) f) S }
{
    let mut lowest: Option<Choice> = None;
    for passed in 0..table.constraints.file.sizes.m {
        let k = passed + 1;
        lowest = lower(lowest, known_key(table, bounds, keys, k), k);
    }
    lowest
}

// Lowers bounds until no step lowers any, and writes the steps. Not inlined, so that its keys, 10 kB, leave the stack before the next phase.
// Stays: a loop like that of `add_marks`. No plainer: one for both needs a trait with the choice, the two facts that it keeps and leaves of what is kept,
// and a law each for the start, for a step that is chosen and for one that is taken, which is longer than both loops.
#[inline(never)]
pub(crate) fn lower_bounds(table: &Table, first: Standing, output: &mut [u8]) -> Phase
    requires { (s : ℕ) → (view (sizes_in table.now).p first).bound s < (sizes_in table.now).p }
    ensures { (f : ℕ → ℕ) → Lowered (given (circuit_in table.now) f) (view (sizes_in table.now).p first)
        (view (sizes_in table.now).p result.standing) output.old output.new result.count }
{
    let mut standing = first;
    let mut keys = nothing();
    let most = table.constraints.file.sizes.n;
    for count in 0..most {
        let Some(choice) = least_key(table, &standing.bounds, &mut keys) else {
            return Phase { standing, count };
        };
        table.take(&mut standing, choice, output, count);
        table.forget(&mut keys, choice.key.target);
    }
    Phase {
        standing,
        count: most,
    }
}
