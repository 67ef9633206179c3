// Constraints on small values, each below 65,536: 255 products of a 32-bit coefficient and such a value stay below 2^56, so that one remainder a form is enough.
// Stays: beside `circuit::run`, which takes a remainder a term, since its values are of 31 bits: a search looks at constraints by the million.

ghost use Rattle.std.specs.Prelude.{◌≡◌};
ghost use Rattle.circuit.specs.Circuit.{eval};
ghost use Rattle.circuit.specs.Reader.{form_in, constraint_in};
ghost use Rattle.circuit.specs.Run.{values_in, holds};
ghost use Rattle.runs.specs.Inner.{Small};

use circuit::form::{Forms, term_count, term_in};
use circuit::run::value_of;

// The value of a form, as a whole number.
fn eval_form(part: &[u8], values: &[u32]) -> u64
    requires { Small (values_in values.now) }
    ensures { result ≡ eval (form_in part.now) (values_in values.now) }
{
    let mut sum = 0;
    for i in 0..term_count(part) {
        let term = term_in(part, i);
        sum += u64::from(term.coefficient) * u64::from(value_of(values, term.signal));
    }
    sum
}

// Whether A times B equals C modulo p in the constraint that a part starts with; false where p is 0.
pub(crate) fn satisfied(part: &[u8], values: &[u32], p: u32) -> bool
    requires { Small (values_in values.now) }
    ensures { result ≡ holds p (constraint_in part.now) (values_in values.now) }
{
    if p == 0 {
        return false;
    }
    let Forms { a, b, c } = Forms::of(part);
    let p = u64::from(p);
    let product = eval_form(a, values) % p * (eval_form(b, values) % p);
    product % p == eval_form(c, values) % p
}
