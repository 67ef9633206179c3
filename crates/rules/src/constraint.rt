// What the rules ask of one constraint, whose part of the circuit bytes starts at it: linear, root, product, nonzero and quotient.
// Stays: part, marks, t and p as parameters, here and for forms: each function reads up to three of them, and no fact joins them.

ghost use Rattle.std.specs.Prelude.{◌≡◌, not, ◌&&◌, ◌||◌};
ghost use Rattle.circuit.specs.Circuit.{names};
ghost use Rattle.circuit.specs.Reader.{form_in, constraint_in};
ghost use Rattle.laws.specs.Rules.{names_none, linear, is_zero, names_only, root_met, root, root_bound, others_marked, product_met};
ghost use Rattle.laws.specs.Rules.{nonzero_met, divisor, single, quotient_met};
ghost use Rattle.rules.specs.View.{mark_in};

use crate::arith::multiply_add;
use crate::form::{coefficients, is_single, names_beside};
use crate::view::mark_at;
use circuit::form::Forms;
use circuit::reader::after_form;
use field::modular::inverse;

// Whether the form names t, and all its other signals are marked.
fn stands_in(part: &[u8], marks: &[bool], t: u32) -> bool
    ensures { result ≡ (names (form_in part.now) t && others_marked (mark_in marks.now) t (form_in part.now)) }
{
    names_beside(part, marks, t) == Some(true)
}

// Whether it does not name t, and all its signals are marked.
fn stays_out(part: &[u8], marks: &[bool], t: u32) -> bool
    ensures { result
        ≡ (not (names (form_in part.now) t) && others_marked (mark_in marks.now) t (form_in part.now)) }
{
    names_beside(part, marks, t) == Some(false)
}

// Whether the form names no signal: with no marks, all its signals other than the constant are marked exactly if it names none.
#[tactic(auto, using(crate::proofs::FormTests::unmarked_none))]
fn names_none(part: &[u8]) -> bool
    ensures { result ≡ names_none (form_in part.now) }
{
    names_beside(part, &[], 0).is_some()
}

// Whether the form has no terms.
#[tactic(auto, using(crate::proofs::FormTests::unmarked_zero))]
fn is_zero(part: &[u8]) -> bool
    ensures { result ≡ is_zero (form_in part.now) }
{
    stays_out(part, &[], 0)
}

// Whether the form names signal t and no other.
#[tactic(auto, using(crate::proofs::FormTests::unmarked_only))]
fn names_just(part: &[u8], t: u32) -> bool
    ensures { result ≡ (names (form_in part.now) t && names_only t (form_in part.now)) }
{
    stands_in(part, &[], t)
}

// Rule 4.1: whether A or B names no signal.
// Stays: B by `after_form`, here and in `root_bound`: `Forms` finds the third form too, which isn't looked at, and with it solving took up to 1.04 times the
// instructions.
#[tactic(auto, unfolding(laws::specs::Rules::linear, circuit::specs::Reader::constraint_in))]
pub fn is_linear(part: &[u8]) -> bool
    ensures { result ≡ linear (constraint_in part.now) }
{
    names_none(part) || names_none(after_form(part))
}

// Rule 4.3: whether the root rule is met for target t.
#[tactic(auto, unfolding(laws::specs::Rules::root_met, circuit::specs::Reader::constraint_in))]
pub fn root_met(part: &[u8], t: u32) -> bool
    ensures { result ≡ root_met (constraint_in part.now) t }
{
    let Forms { a, b, c } = Forms::of(part);
    is_zero(c) && names_just(a, t) && names_just(b, t)
}

// Where the form is 0, if it names only t.
fn root_of(part: &[u8], p: u32, t: u32) -> u32
    ensures { result ≡ root p (form_in part.now) t }
{
    if p < 2 {
        return 0;
    }
    let found = coefficients(part, t, p);
    multiply_add(0, p - found.constant, inverse(p, found.coef), p)
}

// Rule 4.3: the larger of the two roots.
#[tactic(auto, unfolding(laws::specs::Rules::root_bound, circuit::specs::Reader::constraint_in))]
pub fn root_bound(part: &[u8], p: u32, t: u32) -> u32
    ensures { result ≡ root_bound p (constraint_in part.now) t }
{
    root_of(part, p, t).max(root_of(after_form(part), p, t))
}

// Rule 4.6: whether the product rule is met for target t.
#[tactic(auto, using(crate::proofs::FormTests::product_is), unfolding(circuit::specs::Reader::constraint_in))]
pub fn product_met(part: &[u8], marks: &[bool], t: u32) -> bool
    ensures { result ≡ product_met (constraint_in part.now) (mark_in marks.now) t }
{
    let Forms { a, b, c } = Forms::of(part);
    !is_linear(part) && stands_in(c, marks, t) && stays_out(a, marks, t) && stays_out(b, marks, t)
}

// Rule 4.8: whether the nonzero rule is met for target t.
#[tactic(auto, unfolding(laws::specs::Rules::nonzero_met, circuit::specs::Reader::constraint_in))]
pub fn nonzero_met(part: &[u8], t: u32) -> bool
    ensures { result ≡ nonzero_met (constraint_in part.now) t }
{
    let Forms { a, b, c } = Forms::of(part);
    is_single(c, 0) && (is_single(a, t) || is_single(b, t))
}

// Whether r is marked, has a nonzero mark and isn't t.
#[tactic(auto, unfolding(laws::specs::Rules::divisor))]
fn is_divisor(marks: &[bool], nonzeros: &[bool], t: u32, r: u32) -> bool
    ensures { result ≡ divisor (mark_in marks.now) (mark_in nonzeros.now) t r }
{
    mark_at(marks, r as usize) && mark_at(nonzeros, r as usize) && r != t
}

// Whether the first form is a single term on r, and the other names t, and all its other signals are marked.
fn divides_by(first: &[u8], other: &[u8], marks: &[bool], t: u32, r: u32) -> bool
    ensures { result ≡ (single r (form_in first.now)
        && (names (form_in other.now) t && others_marked (mark_in marks.now) t (form_in other.now))) }
{
    is_single(first, r) && stands_in(other, marks, t)
}

// Rule 4.9: whether the quotient rule is met for target t and reference r.
#[tactic(auto, using(crate::proofs::FormTests::quotient_is), unfolding(circuit::specs::Reader::constraint_in))]
pub fn quotient_met(part: &[u8], marks: &[bool], nonzeros: &[bool], t: u32, r: u32) -> bool
    ensures { result ≡ quotient_met (constraint_in part.now) (mark_in marks.now) (mark_in nonzeros.now) t r }
{
    let Forms { a, b, c } = Forms::of(part);
    is_divisor(marks, nonzeros, t, r)
        && (divides_by(a, b, marks, t, r) || divides_by(b, a, marks, t, r))
        && stays_out(c, marks, t)
}
