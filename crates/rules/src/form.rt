// Forms in bytes: what a form names, and its coefficients.
// Stays: parameters, as in constraint.rt.

ghost use Rattle.std.specs.Prelude.{◌≡◌, Some, None, IfSome, cond, ◌&&◌, ◌%◌, ◌<◌, ◌≤◌, leb, eqb};
ghost use Rattle.circuit.specs.Circuit.{coef, names};
ghost use Rattle.circuit.specs.Reader.{signals_most, form_in};
ghost use Rattle.laws.specs.Sum.{keep};
ghost use Rattle.laws.specs.Rules.{others_marked, single};
ghost use Rattle.rules.specs.View.{mark_in};
ghost use Rattle.rules.specs.Steps.{allowed, sole};

use crate::view::mark_at;
use circuit::form::{Term, term_at, term_count};
use circuit::reader::SIGNALS_MOST;

// Whether a term on this signal is one on t. A signal above 256 is passed over.
fn is_on(signal: u32, t: u32) -> bool
    ensures { result ≡ (leb signal signals_most && eqb signal t) }
{
    signal <= SIGNALS_MOST && signal == t
}

// Whether a term on this signal leaves all signals but t marked.
#[tactic(auto, unfolding(crate::specs::Steps::allowed))]
fn other_marked(marks: &[bool], t: u32, signal: u32) -> bool
    ensures { result ≡ allowed (mark_in marks.now) t signal }
{
    SIGNALS_MOST < signal || signal == 0 || signal == t || mark_at(marks, signal as usize)
}

// Whether the form at the start of the part names t, if all its other signals are marked.
pub(crate) fn names_beside(part: &[u8], marks: &[bool], t: u32) -> Option<bool>
    ensures { result
        ≡ cond (others_marked (mark_in marks.now) t (form_in part.now)) (Some (names (form_in part.now) t)) None }
{
    let mut names = false;
    for i in 0..term_count(part) {
        let term = term_at(part, i);
        if !other_marked(marks, t, term.signal) {
            return None;
        }
        names |= is_on(term.signal, t);
    }
    Some(names)
}

// The signal of the form that the part starts with, if it has exactly one term; 0 is the constant. Signals above 256 are passed over.
pub fn sole_signal(part: &[u8]) -> Option<u32>
    ensures is { result ≡ sole (form_in part.now) }
    ensures most { IfSome result (λ s. s ≤ signals_most) }
{
    let mut found = None;
    for i in 0..term_count(part) {
        let term = term_at(part, i);
        if SIGNALS_MOST < term.signal {
            continue;
        }
        if found.is_some() {
            return None;
        }
        found = Some(term.signal);
    }
    found
}

// Whether it has exactly one term, on s.
#[tactic(auto, using(crate::proofs::FormTests::sole_single))]
pub fn is_single(part: &[u8], s: u32) -> bool
    ensures { result ≡ single s (form_in part.now) }
{
    sole_signal(part) == Some(s)
}

// The coefficient of a term, if that is on t, else 0.
#[tactic(auto, unfolding(laws::specs::Sum::keep))]
fn term_on(term: Term, t: u32) -> u64
    ensures { (result ≡ keep (leb term.signal signals_most && eqb term.signal t) term.coefficient) × (result < 4294967296) }
{
    if is_on(term.signal, t) {
        u64::from(term.coefficient)
    } else {
        0
    }
}

// A form as a function of one signal: its constant and that signal's coefficient modulo p.
#[derive(Clone, Copy, Debug, PartialEq, Eq)]
pub(crate) struct Affine {
    pub constant: u32,
    pub coef: u32,
}

// The form at the start of the part as a function of t, whatever else it names.
pub(crate) fn coefficients(part: &[u8], t: u32, p: u32) -> Affine
    requires { 0 < p }
    ensures { (result.constant ≡ coef (form_in part.now) 0 % p) × (result.coef ≡ coef (form_in part.now) t % p) }
{
    let mut constant: u64 = 0;
    let mut coef: u64 = 0;
    for i in 0..term_count(part) {
        let term = term_at(part, i);
        constant += term_on(term, 0);
        coef += term_on(term, t);
    }
    let modulus = u64::from(p);
    Affine {
        constant: (constant % modulus) as u32,
        coef: (coef % modulus) as u32,
    }
}
