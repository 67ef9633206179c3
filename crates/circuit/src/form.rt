// Forms in bytes: how many terms a form has, its terms by their place, and the three forms of a constraint. Read without tests, for all bytes.
// Stays: a part is a slice that starts at the form, the paper's form (docs/DECISIONS.md, "Forms", "each form's own part"), so no struct of a form.

ghost use Rattle.std.specs.Prelude.{◌≡◌, ◌+◌, ◌<◌};
ghost use Rattle.circuit.specs.Bytes.{byte_at, u16_at, u32_at};
ghost use Rattle.circuit.specs.Reader.{form_size, after_form};

use crate::bytes::{byte_at, u16_at, u32_at};
use crate::reader::{TERM_SIZE, after_form};

// A term of a form: its signal and its coefficient.
#[derive(Clone, Copy, Debug, PartialEq, Eq)]
pub struct Term {
    pub signal: u32,
    pub coefficient: u32,
}

// How many bytes a form has, by its count of terms. Term i, counted from 0, starts where a form of i terms would end.
pub(crate) fn form_size(count: u32) -> usize
    ensures { result ≡ form_size count }
{
    1 + TERM_SIZE * count as usize
}

// How many terms the form has that the part starts with.
pub fn term_count(part: &[u8]) -> u32
    ensures { (result ≡ byte_at part.now 0) × (result < 256) }
{
    byte_at(part, 0)
}

// Its term i, counted from 0.
// Stays: five loops go over the terms by their place, of which `check_form` needs the terms' offsets too; an iterator would need a struct, laws and a
// ghost `remaining` for what is one line in each.
pub fn term_at(part: &[u8], i: u32) -> Term
    ensures { (result.signal ≡ u16_at part.now (form_size i)) × (result.coefficient ≡ u32_at part.now (form_size i + 2))
        × (result.signal < 65536) }
{
    let at = form_size(i);
    Term {
        signal: u16_at(part, at),
        coefficient: u32_at(part, at + 2),
    }
}

// Term i, as `term_at` gives it: where the part has all of its bytes, which it has in a circuit that was read, they are looked for once.
// Stays: beside `term_at`, by which the reader goes over a file; values of forms are asked for by the million.
pub fn term_in(part: &[u8], i: u32) -> Term
    ensures { (result.signal ≡ u16_at part.now (form_size i)) × (result.coefficient ≡ u32_at part.now (form_size i + 2))
        × (result.signal < 65536) }
{
    let start = form_size(i);
    match part.get(start..start + TERM_SIZE) {
        Some(bytes) => Term {
            signal: u16_at(bytes, 0),
            coefficient: u32_at(bytes, 2),
        },
        None => term_at(part, i),
    }
}

// The three forms of a constraint, each as the part that it starts.
#[derive(Clone, Copy, Debug, PartialEq, Eq)]
pub struct Forms<'a> {
    pub a: &'a [u8],
    pub b: &'a [u8],
    pub c: &'a [u8],
}

impl<'a> Forms<'a> {
    // Those of the constraint that the part starts with.
    pub fn of(part: &'a [u8]) -> Forms<'a>
        ensures { (result.a.now ≡ part.now) × (result.b.now ≡ after_form part.now) × (result.c.now ≡ after_form (after_form part.now)) }
    {
        let b = after_form(part);
        let c = after_form(b);
        Forms { a: part, b, c }
    }
}
