// The sum rule by a row: the constant weight plus the sum of weight times bound, and the one sum that lowers a bound.

ghost use Rattle.std.specs.Prelude.{◌≡◌, ℕ, ◌≤◌, ◌<◌, Some, IfSome, position, nat_eq};
ghost use Rattle.field.specs.Prime.{Prime};
ghost use Rattle.circuit.specs.Circuit.{Constraint};
ghost use Rattle.circuit.specs.Reader.{constraint_in};
ghost use Rattle.laws.specs.Rules.{reduced, ceiling, sum_term};
ghost use Rattle.rules.specs.View.{bound_in};
ghost use Rattle.rules.specs.Rows.{entries, Row, coef_on, bound_on};
ghost use Rattle.rules.specs.Steps.{sum_step, OneSum, Highest, Scale, Scaled, Summed};

use crate::arith::{multiply_add, opposite, product};
use crate::constraint::is_linear;
use crate::rows::Entry;
use field::modular::inverse;

// The place of signal t in a row, None where it has none.
pub(crate) fn place_in(row: &[Entry], t: u32) -> Option<usize>
    ensures { result ≡ position (λ x. nat_eq x.signal t) row.now }
{
    row.iter().position(|entry| u32::from(entry.signal) == t)
}

// A row and the bounds of signals, modulo p.
#[derive(Clone, Copy, Debug, PartialEq, Eq)]
struct Sums<'a> {
    row: &'a [Entry],
    bounds: &'a [u32],
    p: u32,
}

impl<'a> Sums<'a> {
    // What coefficients are multiplied by to give weights of the sum for place e: -1/c modulo p, from 1 to p, where c is the coefficient there.
    // None where that is no target.
    fn scale(self, e: usize) -> Option<u32>
        ensures { Scaled self.entry.p (coef_on self.entry.row.now) (entries self.entry.row.now) e result }
    {
        if self.p == 0 || e == 0 {
            return None;
        }
        let coefficient = self.row.get(e)?.coefficient;
        if coefficient == 0 {
            return None;
        }
        Some(opposite(inverse(self.p, coefficient), self.p))
    }

    // What the weight of place i is multiplied by: the bound, 1 for the constant.
    fn ceiling(self, i: usize) -> u32
        requires { i < entries self.row.now }
        ensures { result ≡ ceiling (bound_on self.entry.p self.entry.bounds.now self.entry.row.now) i }
    {
        if i == 0 {
            return 1;
        }
        self.row[i].bound(self.bounds, self.p)
    }

    // What place i adds to the sum for place e. Where the bound is 0 the weight doesn't matter, and isn't computed.
    #[tactic(auto, using(crate::proofs::SumLaws::term_target, crate::proofs::SumLaws::term_zero))]
    fn term(self, e: usize, scale: u32, i: usize) -> u64
        requires { Scale self.p (coef_on self.row.now) (entries self.row.now) e scale × (i < entries self.row.now) }
        ensures { (result ≡ sum_term self.entry.p (coef_on self.entry.row.now) (bound_on self.entry.p self.entry.bounds.now self.entry.row.now) e i)
            × (result ≤ 18446744065119617025) }
    {
        if i == e {
            return 0;
        }
        let most = self.ceiling(i);
        if most == 0 {
            return 0;
        }
        product(
            multiply_add(0, self.row[i].coefficient, scale, self.p),
            most,
        )
    }

    // Rule 4.4: the sum for the target at place e, None where that is no target or the sum isn't below the limit.
    fn total(self, e: usize, limit: u32) -> Option<u32>
        ensures { Summed self.entry.p (coef_on self.entry.row.now) (bound_on self.entry.p self.entry.bounds.now self.entry.row.now)
            (entries self.entry.row.now) e limit result }
    {
        let scale = self.scale(e)?;
        let mut total: u64 = 0;
        for i in 0..self.row.len() {
            total += self.term(e, scale, i);
            if u64::from(limit) <= total {
                return None; // the sum isn't below the limit
            }
        }
        Some(total as u32)
    }

    // The place whose bound is above those of all other signals with a coefficient, if there is one and it is below p; None where the highest
    // bound stands twice. Where p - 1 stands twice nothing further is looked at.
    // Stays: by index; tried: over `enumerate().skip(1)` a proof knows the iterator's state, not the place, and no answer carried over.
    fn highest(self) -> Option<usize>
        ensures within { IfSome result (λ e. e < entries self.entry.row.now) }
        ensures found { (e : ℕ) → Highest (coef_on self.entry.row.now) (bound_on self.entry.p self.entry.bounds.now self.entry.row.now)
            (entries self.entry.row.now) e → bound_on self.entry.p self.entry.bounds.now self.entry.row.now e < self.entry.p → result ≡ Some e }
    {
        if self.p == 0 {
            return None;
        }
        let largest = self.p - 1;
        let mut found = None;
        let mut top: u32 = 0;
        for i in 1..self.row.len() {
            let entry = self.row[i];
            if entry.coefficient != 0 {
                let bound = entry.bound(self.bounds, self.p);
                if top < bound {
                    found = Some(i);
                    top = bound;
                } else if bound == top {
                    if largest <= bound {
                        return None;
                    }
                    found = None;
                }
            }
        }
        found
    }
}

// The bound that the sum rule gives the target, None where the rule isn't met.
// Stays: slices as parameters, here and in `lowering_sum`: these take the slices that their callers hold.
pub(crate) fn sum_step(part: &[u8], row: &[Entry], bounds: &[u32], p: u32, t: u32) -> Option<u32>
    ensures { (n : ℕ) → Prime p → Row p n (constraint_in part.now) row.now → 1 ≤ t → t ≤ n
        → result ≡ sum_step p n (constraint_in part.now) (bound_in p bounds.now) t }
{
    if !is_linear(part) {
        return None;
    }
    let sums = Sums { row, bounds, p };
    let place = place_in(row, t)?;
    sums.total(place, p)
}

// A sum by the form of a row that lowers a bound: its target, and the bound that it gives.
#[derive(Clone, Copy, Debug, PartialEq, Eq)]
pub struct Lowering {
    pub target: u32,
    pub bound: u32,
}

// The one sum that lowers a bound, if there is one. Only the signal with the highest bound may be its target, since a sum is at least every other bound.
pub fn lowering_sum(row: &[Entry], bounds: &[u32], p: u32) -> Option<Lowering>
    ensures { (n : ℕ) (K : Constraint) → Prime p → Row p n K row.now → ((s : ℕ) → bound_in p bounds.now s < p)
        → OneSum p n (reduced p K) (bound_in p bounds.now) result }
{
    let sums = Sums { row, bounds, p };
    let place = sums.highest()?;
    let entry = row[place];
    let bound = sums.total(place, entry.bound(bounds, p))?;
    Some(Lowering {
        target: u32::from(entry.signal),
        bound,
    })
}
