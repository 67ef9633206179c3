// The digits of a row, which are the unmarked entries with a bound above 0, and the test of each signal's weight against what they weigh and add.

ghost use Rattle.std.specs.Prelude.{◌≡◌, ◌*◌, ◌%◌, ◌<◌, length, take, min};
ghost use Rattle.laws.specs.Sum.{sum};
ghost use Rattle.rules.specs.View.{coef_in};

use crate::arith::multiply_add;
use crate::digits::is_live;
use crate::rows::Entry;

// The most digits of a row that passes, since 2 to their number is at most p.
pub(crate) const DIGITS_MOST: usize = 31;

// The digits of a row, where they are fewer than 32: its unmarked entries with a bound above 0.
// Stays: an array with a count: there is no heap, so no `Vec`, and the kit's `ArrayVec` would be one more library under all crates above, for this one
// place.
#[derive(Clone, Copy, Debug, PartialEq, Eq)]
pub struct Few {
    pub entries: [Entry; DIGITS_MOST],
    pub count: usize,
}

impl Few {
    // The entries that are gathered; of a count above 31, the first 31.
    pub(crate) fn gathered(&self) -> &[Entry]
        ensures { result.now ≡ take (min self.entry.now.count 31) self.entry.now.entries }
    {
        &self.entries[..self.count.min(DIGITS_MOST)]
    }
}

// The weight of a coefficient, where the scale is the inverse of the reference's.
pub(crate) fn weight_of(coef: u32, scale: u32, p: u32) -> u32
    requires { 0 < p }
    ensures { (result ≡ coef * scale % p) × (result < p) }
{
    multiply_add(0, coef, scale, p)
}

// The weights of the digits by the scale of a reference, and weight times bound.
// Stays: weights and products apart, so that the loop over both takes several at once; one at a time, renewals on 30 digits took 1.9 times as long.
#[derive(Clone, Copy, Debug, PartialEq, Eq)]
pub(crate) struct Weighed<'a> {
    pub(crate) weights: &'a [u32],
    pub(crate) products: &'a [u32],
    pub(crate) scale: u32,
    pub(crate) p: u32,
    ghost together: { length products.now ≡ length weights.now },
    ghost modulus: { 0 < p },
    ghost fits: { sum (length weights.now) (coef_in products.now) < 4294967296 },
}

impl<'a> Weighed<'a> {
    ghost use Rattle.std.specs.List.{list_all};
    ghost use Rattle.rules.specs.Weights.{smaller, smaller_at, exceeds};

    // The product if its weight is below w, else 0. Chosen in a function of its own, so that the loop below takes several at once.
    #[tactic(auto, using(crate::proofs::DigitsLaws::smaller_yes, crate::proofs::DigitsLaws::smaller_no))]
    fn smaller(weight: u32, product: u32, w: u32) -> u32
        ensures { result ≡ smaller weight product w }
    {
        if weight < w { product } else { 0 }
    }

    // The sum of the products of weights below w. No early end, so that the loop takes several at once.
    fn smaller_sum(&self, w: u32) -> u32
        ensures { result ≡ sum (length self.entry.now.weights.now) (smaller_at (coef_in self.entry.now.weights.now) (coef_in self.entry.now.products.now) w) }
    {
        let mut below: u32 = 0;
        for (weight, product) in self.weights.iter().zip(self.products) {
            below += Weighed::smaller(*weight, *product, w);
        }
        below
    }

    // Whether an entry is marked, or its weight exceeds the sum of the products of smaller weights.
    fn stands_out(&self, entry: &Entry, marks: &[bool]) -> bool
        ensures { result ≡ exceeds self.entry.now marks.now entry.now }
    {
        if !is_live(entry, marks) {
            return true;
        }
        let w = weight_of(entry.coefficient, self.scale, self.p);
        self.smaller_sum(w) < w
    }

    // Whether this holds of all entries.
    pub(crate) fn all_stand_out(&self, row: &[Entry], marks: &[bool]) -> bool
        ensures { result ≡ list_all (exceeds self.entry.now marks.now) row.now }
    {
        row.iter().all(|entry| self.stands_out(entry, marks))
    }
}
