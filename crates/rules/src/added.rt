// Weight times bound of a form's unmarked signals, added up in rising order until p is reached: the third clause of rule 4.7, for marker and search.

ghost use Rattle.std.specs.Prelude.{ℕ, ◌<◌};
ghost use Rattle.circuit.specs.Circuit.{Constraint};
ghost use Rattle.laws.specs.Rules.{reduced};
ghost use Rattle.rules.specs.View.{bound_in, mark_in};
ghost use Rattle.rules.specs.Rows.{Row};
ghost use Rattle.rules.specs.Added.{Adds, Keeps, form_terms, terms};

use crate::arith::product;
use crate::digits::is_live;
use crate::gathered::{DIGITS_MOST, weight_of};
use crate::rows::Entry;
use crate::view::bound_at;

// The total, and of how many unmarked signals. Where p isn't reached: how many of these have a bound above 0, and so are digits.
#[derive(Clone, Copy, Debug, PartialEq, Eq)]
pub struct Added {
    pub total: u64,
    pub taken: usize,
    pub digit_count: usize,
}

impl Added {
    // Nothing is added up.
    const NONE: Added = Added {
        total: 0,
        taken: 0,
        digit_count: 0,
    };
}

// Room for the weights of 31 digits, and for weight times bound.
// Stays: weights and products apart, as in `Weighed`, which looks at them.
#[derive(Clone, Copy, Debug, PartialEq, Eq)]
pub struct DigitTerms {
    pub weights: [u32; DIGITS_MOST],
    pub products: [u32; DIGITS_MOST],
}

impl DigitTerms {
    // Nothing is kept.
    pub const NONE: DigitTerms = DigitTerms {
        weights: [0; DIGITS_MOST],
        products: [0; DIGITS_MOST],
    };
}

// Takes the unmarked signals of the entries in their order, as few as reach p, or all; what the digits weigh and add is put into the room. Where p is reached,
// or with more than 31 digits, what the room holds is free, and so is `digit_count` where p is reached.
// Stays: `bound_at` and not the entry's `bound`, for the reason at `is_live`; slices as parameters, as in `prepare`.
pub fn add_up(
    row: &[Entry],
    bounds: &[u32],
    marks: &[bool],
    p: u32,
    scale: u32,
    room: &mut DigitTerms,
) -> Added
    ensures taken { Adds p (terms p bounds.now marks.now scale row.now) result }
    ensures form { (n : ℕ) (K : Constraint) → 0 < p → Row p n K row.now
        → Adds p (form_terms p n (reduced p K) (bound_in p bounds.now) (mark_in marks.now) scale) result }
    ensures held { result.total < p → Keeps p bounds.now marks.now scale row.now result.digit_count room.new }
{
    if p == 0 {
        return Added::NONE;
    }
    let mut total: u64 = 0;
    let mut taken: usize = 0;
    let mut digit_count: usize = 0;
    for entry in row {
        if is_live(entry, marks) {
            taken += 1;
            let bound = bound_at(bounds, entry.signal as usize, p);
            if bound != 0 {
                let weight = weight_of(entry.coefficient, scale, p);
                let term = product(weight, bound);
                total += term;
                if u64::from(p) <= total {
                    break;
                }
                if digit_count < DIGITS_MOST {
                    room.weights[digit_count] = weight;
                    room.products[digit_count] = term as u32;
                }
                digit_count += 1;
            }
        }
    }
    Added {
        total,
        taken,
        digit_count,
    }
}
