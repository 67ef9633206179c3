// Forms and constraints evaluated modulo p on a run that is lent as a slice: the constant one, then the values of the signals from 1 on.
// Stays: part, values and p as parameters, those of the public `satisfied`: a struct of values and p would be made just for two functions below it.

ghost use Rattle.std.specs.Prelude.{◌≡◌, ◌≤◌, ◌<◌, ◌%◌};
ghost use Rattle.circuit.specs.Reader.{form_size, form_in, constraint_in};
ghost use Rattle.circuit.specs.Run.{values_in, term_mod, eval_mod, holds};

use crate::form::{Forms, term_count, term_in};
use crate::reader::SIGNALS_MOST;

// The value of a signal, 0 past the end.
// Stays: `get`, `copied`, `unwrap_or` stand here as in `part_of` and other readers of a slice: the library's own chain, and a name of its own is no plainer.
#[tactic(auto, unfolding(crate::specs::Run::values_in))]
pub fn value_of(values: &[u32], signal: u32) -> u32
    ensures { result ≡ values_in values.now signal }
{
    values.get(signal as usize).copied().unwrap_or(0)
}

// The remainder of a number modulo p. What is below p is its own: dividing takes longest of all here, and most coefficients of a circuit are 1.
#[tactic(auto, using(crate::proofs::RunLaws::small_remainder))]
fn remainder(x: u64, p: u32) -> u32
    requires { 0 < p }
    ensures { (result ≡ x % p) × (result < p) }
{
    let p = u64::from(p);
    if x < p { x as u32 } else { (x % p) as u32 }
}

// The value modulo p of a form's term i; 0 of a signal that no circuit has.
#[tactic(auto, unfolding(crate::specs::Run::term_mod))]
fn term_value(part: &[u8], i: u32, values: &[u32], p: u32) -> u32
    requires { 0 < p }
    ensures { (result ≡ term_mod p part.now (form_size i) (values_in values.now)) × (result < p) }
{
    let term = term_in(part, i);
    if SIGNALS_MOST < term.signal {
        return 0;
    }
    let coefficient = u64::from(term.coefficient);
    let value = u64::from(value_of(values, term.signal));
    remainder(coefficient * value, p)
}

// The value of a form modulo p. No term waits for the remainder of the one before it.
fn eval_form(part: &[u8], values: &[u32], p: u32) -> u32
    requires { 0 < p }
    ensures { result ≡ eval_mod p (form_in part.now) (values_in values.now) }
{
    let mut sum: u64 = 0;
    for i in 0..term_count(part) {
        sum += u64::from(term_value(part, i, values, p));
    }
    remainder(sum, p)
}

// Whether A times B equals C modulo p in the constraint that a part starts with; false where p is 0.
#[tactic(auto, using(crate::proofs::RunLaws::holds_by, crate::proofs::RunLaws::holds_not))]
pub fn satisfied(part: &[u8], values: &[u32], p: u32) -> bool
    ensures { result ≡ holds p (constraint_in part.now) (values_in values.now) }
{
    if p == 0 {
        return false;
    }
    let forms = Forms::of(part);
    let a = u64::from(eval_form(forms.a, values, p));
    let b = u64::from(eval_form(forms.b, values, p));
    let c = u64::from(eval_form(forms.c, values, p));
    a * b % u64::from(p) == c
}
