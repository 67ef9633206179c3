// Keys, by which the steps of a phase are ordered; the step that a phase chose; and the key of the one step by which a constraint lowers a bound: a
// root, or a sum.

ghost use Rattle.std.specs.Prelude.{◌≡◌, false, ℕ, ◌<◌, ◌↔◌, IsTrue, None, length, replicate};
ghost use Rattle.field.specs.Prime.{Prime};
ghost use Rattle.circuit.specs.Circuit.{WellFormedConstraint};
ghost use Rattle.circuit.specs.Reader.{constraint_in};
ghost use Rattle.laws.specs.Rules.{linear};
ghost use Rattle.rules.specs.View.{bound_in};
ghost use Rattle.rules.specs.Rows.{Row};
ghost use Rattle.solver.specs.Kept.{LookedUp};
ghost use Rattle.solver.specs.Bounds.{least_in, IsKey};

use crate::search::signal_in;
use rules::constraint::{is_linear, root_bound, root_met};
use rules::rows::Entry;
use rules::standing::Kind;
use rules::sums::lowering_sum;
use rules::view::bound_at;

// What orders the steps of a phase: the new bound, which is 0 for a mark of either sort, the target, the kind.
#[derive(Clone, Copy, Debug, PartialEq, Eq, PartialOrd, Ord)]
pub(crate) struct Key {
    pub bound: u32,
    pub target: u32,
    pub kind: Kind,
}

// What is kept of a constraint: None where nothing is known, Some(None) where it has no step.
pub(crate) type Kept<T> = Option<Option<T>>;

// Nothing is known of any constraint. Apart from its callers, where the array would be cleared twice.
pub(crate) fn nothing<T: Copy>() -> [Kept<T>; 513]
    ensures { result ≡ replicate 513 None }
{
    [None; 513]
}

// What is known of constraint k: what is kept of it or, where nothing is, what is found, which is kept then. `Fn`, since of a closure that holds a
// table the kit passes nothing on through `FnOnce`.
pub(crate) fn known<T: Copy, F: Fn() -> Option<T>>(
    kept: &mut [Kept<T>; 513],
    k: u32,
    find: F,
) -> Option<T>
    requires place { k < 513 }
    requires found { F.pre find }
    ensures { LookedUp (F.post find) k result kept.old kept.new }
{
    let place = k as usize;
    if let Some(known) = kept[place] {
        return known;
    }
    let found = find();
    kept[place] = Some(found);
    found
}

// A step that a phase takes: its key, its constraint, 0 for a zero step, and its reference, 0 where its kind has none.
// Stays: 0 where there is none, as the step's bytes have it (rule 2.2); an Option would be opened to 0 by its one reader. And no derivation's `Step`: what
// finds targets gives 32 bits, so each of the five places that make a choice would cast its target and prove that it fits, and not `take` alone.
#[derive(Clone, Copy, Debug, PartialEq, Eq)]
pub(crate) struct Choice {
    pub key: Key,
    pub constraint: u32,
    pub reference: u16,
}

impl Key {
    ghost use Rattle.solver.specs.Bounds.{key_in, least_of};

    // Whether it lies below that of the lowest step so far, if there is one.
    #[tactic(auto, unfolding(crate::specs::Bounds::key_of))]
    pub fn is_below(self, lowest: Option<Choice>) -> bool
        ensures { IsTrue result ↔ (key_in self < least_of lowest) }
    {
        lowest.is_none_or(|least| self < least.key)
    }
}

// The key of a constraint that isn't linear: a root at a signal of A.
fn root_key(part: &[u8], bounds: &[u32], p: u32) -> Option<Key>
    ensures { (n : ℕ) → Prime p → WellFormedConstraint n p (constraint_in part.now)
        → linear (constraint_in part.now) ≡ false
        → IsKey p n (constraint_in part.now) (bound_in p bounds.now) (least_in result) }
{
    let target = signal_in(part)?;
    if !root_met(part, target) {
        return None;
    }
    let bound = root_bound(part, p, target);
    if bound_at(bounds, target as usize, p) <= bound {
        return None;
    }
    Some(Key {
        bound,
        target,
        kind: Kind::Root,
    })
}

// The key of a constraint, by its row where it is linear.
// Stays: parameters, since part, row and bounds are three slices of which the two ways read two each.
pub(crate) fn key_by(part: &[u8], row: &[Entry], bounds: &[u32], p: u32) -> Option<Key>
    ensures { (n : ℕ) → Prime p → WellFormedConstraint n p (constraint_in part.now)
        → Row p n (constraint_in part.now) row.now → ((s : ℕ) → bound_in p bounds.now s < p)
        → IsKey p n (constraint_in part.now) (bound_in p bounds.now) (least_in result) }
{
    if !is_linear(part) {
        return root_key(part, bounds, p);
    }
    let low = lowering_sum(row, bounds, p)?;
    Some(Key {
        bound: low.bound,
        target: low.target,
        kind: Kind::Sum,
    })
}
