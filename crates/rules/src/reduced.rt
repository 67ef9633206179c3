// The reduced form of a constraint, and which of its forms name each signal, by one walk over each form once the constants are known.

ghost use Rattle.std.specs.Prelude.{◌≡◌, ◌+◌, ◌≤◌, ◌<◌, replicate};
ghost use Rattle.circuit.specs.Reader.{form_in, constraint_in};
ghost use Rattle.rules.specs.Rows.{nothing, Addable, FormAdded, Reduces};

use crate::arith::{add_multiple, multiply_add};
use crate::form::coefficients;
use crate::rows::Entry;
use circuit::form::{Forms, term_at, term_count};

// The forms with this bit, the highest so far.
// Stays: not by `|`: the definitions add the bits, so each proof would need that a sum of bits is their or.
fn with_bit(forms: u8, bit: u8) -> u8
    requires { bit ≤ 4 }
    ensures { (forms < bit → result ≡ forms + bit) × (bit ≤ forms → result ≡ forms) }
{
    if forms < bit { forms + bit } else { forms }
}

// Adds the form's multiple by the factor, modulo p, to the coefficients, and the bit to the forms of each signal that it names. Bits are added
// from the lowest on. Signals above 256 are passed over.
// Stays: a test and a store, since nothing is known of a slice's elements after its `get_mut`.
fn add_form(reduced: &mut [Entry], part: &[u8], factor: u32, bit: u8, p: u32)
    requires { Addable p bit reduced.old }
    ensures { FormAdded p factor bit (form_in part.now) reduced.old reduced.new }
{
    for i in 0..term_count(part) {
        let term = term_at(part, i);
        let signal = term.signal as usize;
        if signal < reduced.len() {
            let entry = &mut reduced[signal];
            entry.coefficient = add_multiple(entry.coefficient, factor, term.coefficient, p);
            entry.forms = with_bit(entry.forms, bit);
        }
    }
}

// Rule 4.2: a0·B + b0·A - a0·b0 - C modulo p by signal, into entries that hold nothing yet, and still nothing where p is 0 or 1. No entry gets its
// signal here.
// Stays: the array is lent and not handed out: with no heap it is the caller's fixed memory, which this fills in place.
pub(crate) fn reduced_form(reduced: &mut [Entry; 257], part: &[u8], p: u32)
    requires { reduced.old ≡ replicate 257 nothing }
    ensures { (1 < p → Reduces p (constraint_in part.now) reduced.new) × (p ≤ 1 → reduced.new ≡ reduced.old) }
{
    if 1 < p {
        let Forms { b, c, .. } = Forms::of(part);
        let a0 = coefficients(part, 0, p).constant;
        let b0 = coefficients(b, 0, p).constant;
        add_form(reduced, part, b0, Entry::IN_A, p);
        add_form(reduced, b, a0, Entry::IN_B, p);
        add_form(reduced, c, p - 1, Entry::IN_C, p);
        let off = p - multiply_add(0, a0, b0, p);
        reduced[0].coefficient = multiply_add(reduced[0].coefficient, off, 1, p);
    }
}
