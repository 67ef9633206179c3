// The digits rule over a row: whether the weights of its unmarked signals separate their values, as those of a mixed-radix numeral do.
// What doesn't turn on the reference is tested once in a search: modulo a prime weights differ exactly if coefficients do. What a weight must exceed is
// summed up over the digits, the entries with a bound above 0, of which a row that passes has fewer than 32, since 2 to their number is at most p.
// Stays: that a row is one of a constraint (`Row`) is a premise of promises, here and for sums, and no type: the functions take any slice.

ghost use Rattle.std.specs.Prelude.{◌≡◌, true, false, List, ℕ, ◌≤◌, ◌<◌, take, nat_eq};
ghost use Rattle.std.specs.List.{list_any, find};
ghost use Rattle.std.specs.Option.{option_copied};
ghost use Rattle.field.specs.Prime.{Prime};
ghost use Rattle.circuit.specs.Circuit.{Constraint};
ghost use Rattle.circuit.specs.Reader.{constraint_in};
ghost use Rattle.laws.specs.Sum.{sum};
ghost use Rattle.laws.specs.Rules.{reduced, occurs};
ghost use Rattle.laws.specs.Rules as rule;
ghost use Rattle.field.specs.Inverse as field;
ghost use Rattle.std.specs.List as list;
ghost use Rattle.rules.specs.View.{bound_in, mark_in};
ghost use Rattle.rules.specs.Rows.{entries, Row, coef_on};
ghost use Rattle.rules.specs.Live.{is_live, live_on, live_bound, bounds_on, has_coefficient, Between, Differ};
ghost use Rattle.rules.specs.Added.{Keeps, terms};
ghost use Rattle.rules.specs.Weights.{Gathers, Ready, Prepared, Tells, FirstLive};

use crate::added::{DigitTerms, add_up};
use crate::constraint::is_linear;
use crate::gathered::{DIGITS_MOST, Few, Weighed};
use crate::rows::Entry;
use crate::view::{bound_at, mark_at};
use field::modular::inverse;

// Whether an entry is an unmarked signal with a coefficient. The mark first: a row of marked signals then takes 0.7 of the time.
// Stays: with `is_marked` here and `bound` in `live_bound` solving bits behind decoys took 1.19 times as long, with `bound` alone 1.03 times; what is
// slower on the rows of the digits test isn't taken.
#[tactic(auto, unfolding(crate::specs::Live::is_live))]
pub(crate) fn is_live(entry: &Entry, marks: &[bool]) -> bool
    ensures { result ≡ is_live marks.now entry.now }
{
    !mark_at(marks, entry.signal as usize) && entry.coefficient != 0 && entry.signal != 0
}

// The first entry that is an unmarked signal with a coefficient.
fn first_live_entry<'a>(row: &'a [Entry], marks: &[bool]) -> Option<&'a Entry>
    ensures { option_copied result ≡ find (is_live marks.now) row.now }
{
    row.iter().find(|entry| is_live(entry, marks))
}

// The lowest unmarked signal of the row with a coefficient, None where there is none.
pub fn first_live(row: &[Entry], marks: &[bool]) -> Option<u32>
    ensures { (p n : ℕ) (K : Constraint) → 0 < p → Row p n K row.now
        → FirstLive n (reduced p K) (mark_in marks.now) result }
{
    first_live_entry(row, marks).map(|entry| u32::from(entry.signal))
}

// Whether x is among the coefficients of the entries.
// Stays: no early end, so that the loop takes several at once; with `any` a search of 30 entries takes 3.8 times as long, one of 96 6.2 times.
fn is_among(some: &[Entry], x: u32) -> bool
    ensures { result ≡ false → (u : ℕ) → u < entries some.now → coef_on some.now u ≡ x → ⊥ }
{
    let mut found = false;
    for entry in some {
        if entry.coefficient == x {
            found = true;
        }
    }
    found
}

// A row, and the bounds and marks of signals, modulo p.
// Stays: beside `Sums`, since the sum rule looks at no marks, and where sums are sought none are at hand.
#[derive(Clone, Copy, Debug, PartialEq, Eq)]
struct Digits<'a> {
    row: &'a [Entry],
    bounds: &'a [u32],
    marks: &'a [bool],
    p: u32,
}

impl<'a> Digits<'a> {
    // The bound of an entry if it is an unmarked signal with a coefficient, else 0.
    // Stays: not by the entry's `bound`: 1.03 times, as above.
    fn live_bound(self, entry: &Entry) -> u32
        ensures { result ≡ live_bound self.entry.p self.entry.bounds.now self.entry.marks.now entry.now }
    {
        if is_live(entry, self.marks) {
            bound_at(self.bounds, entry.signal as usize, self.p)
        } else {
            0
        }
    }

    // Whether the bounds of the unmarked entries add up to p or more. So do they with weights, which are at least 1.
    // Stays: beside `add_up`, since it knows no weights, and one row is then done with for all its references.
    fn is_crowded(self) -> bool
        ensures { result ≡ true → self.entry.p ≤ sum (entries self.entry.row.now)
            (bounds_on self.entry.p self.entry.bounds.now self.entry.marks.now self.entry.row.now) }
    {
        let mut reach: u64 = 0;
        for entry in self.row {
            reach += u64::from(self.live_bound(entry));
            if u64::from(self.p) <= reach {
                return true;
            }
        }
        false
    }

    // Whether x is among the coefficients of the unmarked entries, which are `least` to `most`: outside of that range no search is needed.
    fn is_taken(self, x: u32, least: u32, most: u32) -> bool
        requires { Between (coef_on self.row.now) (live_on self.marks.now self.row.now) (entries self.row.now) least most }
        ensures { result ≡ list_any (has_coefficient self.entry.marks.now x) self.entry.row.now }
    {
        if most < x || x < least || !is_among(self.row, x) {
            return false;
        }
        self.row.iter().any(|entry| is_live(entry, self.marks) && entry.coefficient == x)
    }

    // Whether the coefficients of the unmarked entries differ.
    fn coefs_differ(self) -> bool
        ensures { (result ≡ true
            → Differ (coef_on self.entry.row.now) (live_on self.entry.marks.now self.entry.row.now) (entries self.entry.row.now))
            × (result ≡ false
            → Differ (coef_on self.entry.row.now) (live_on self.entry.marks.now self.entry.row.now) (entries self.entry.row.now) → ⊥) }
    {
        let mut least = u32::MAX;
        let mut most: u32 = 0;
        for (i, entry) in self.row.iter().enumerate() {
            if is_live(entry, self.marks) {
                let coef = entry.coefficient;
                let before = Digits {
                    row: &self.row[..i],
                    ..self
                };
                if before.is_taken(coef, least, most) {
                    return false;
                }
                least = least.min(coef);
                most = most.max(coef);
            }
        }
        true
    }

    // Gathers the unmarked entries with a bound above 0; None where they are 32 or more.
    fn gather(self) -> Option<Few>
        ensures { Gathers self.entry.p self.entry.row.now self.entry.bounds.now self.entry.marks.now result }
    {
        let mut entries = [Entry::NONE; DIGITS_MOST];
        let mut count: usize = 0;
        for entry in self.row {
            if self.live_bound(entry) != 0 {
                if count == DIGITS_MOST {
                    return None;
                }
                entries[count] = *entry;
                count += 1;
            }
        }
        Some(Few { entries, count })
    }
}

// What is tested once for all references that a search tries; None where none separates.
// Stays: slices as parameters, here and in the functions on rows below: a public one takes the slices that its callers hold, and so do those it calls.
pub fn prepare(row: &[Entry], bounds: &[u32], marks: &[bool], p: u32) -> Option<Few>
    ensures { Prepared p row.now bounds.now marks.now result }
{
    let digits = Digits {
        row,
        bounds,
        marks,
        p,
    };
    if digits.is_crowded() || !digits.coefs_differ() {
        return None;
    }
    digits.gather()
}

// Whether each unmarked signal of the row has a weight above the sum of weight times bound over the smaller ones, by the weights of the digits that were
// added up. With more than 31 digits some signal hasn't, where coefficients differ and p isn't reached.
fn stand_out(
    row: &[Entry],
    marks: &[bool],
    digit_count: usize,
    room: &DigitTerms,
    p: u32,
    scale: u32,
) -> bool
    requires { (0 < p) × (digit_count ≤ 31 → list.sum (take digit_count room.now.products) < p) }
    ensures { (bounds : List ℕ) (n : ℕ) (K : Constraint) (r : ℕ) → Prime p → Row p n K row.now
        → Differ (coef_on row.now) (live_on marks.now row.now) (entries row.now) → Keeps p bounds marks.now scale row.now digit_count room.now
        → list.sum (terms p bounds marks.now scale row.now) < p → scale ≡ field.inverse p (reduced p K r) → occurs (reduced p K) r ≡ true
        → result ≡ rule.separated p n (reduced p K) (bound_in p bounds) (mark_in marks.now) r }
{
    if DIGITS_MOST < digit_count {
        return false;
    }
    let weighed = Weighed {
        weights: &room.weights[..digit_count],
        products: &room.products[..digit_count],
        scale,
        p,
    };
    weighed.all_stand_out(row, marks)
}

// Whether the reference at entry i separates the unmarked signals of the row, of which those with a bound above 0 are gathered. What the lent room holds
// afterwards is free.
// Stays: lent; cleared for each reference, solving sums over tagged inputs took 1.12 times as long as before, and takes 1.07 (docs/BENCHMARKS.md).
pub fn separates_at(
    row: &[Entry],
    bounds: &[u32],
    marks: &[bool],
    few: &Few,
    p: u32,
    i: usize,
    room: &mut DigitTerms,
) -> bool
    ensures { Ready p row.now bounds.now marks.now few.now → i < entries row.now → Tells p row.now bounds.now marks.now i result }
{
    let coef = row.get(i).map_or(0, |entry| entry.coefficient);
    if p == 0 || coef == 0 {
        return false;
    }
    let scale = inverse(p, coef);
    let added = add_up(few.gathered(), bounds, marks, p, scale, room);
    added.total < u64::from(p) && stand_out(row, marks, added.digit_count, room, p, scale)
}

// The entry of signal s.
fn entry_on<'a>(row: &'a [Entry], s: u32) -> Option<&'a Entry>
    ensures { option_copied result ≡ find (λ x. nat_eq x.signal s) row.now }
{
    row.iter().find(|entry| u32::from(entry.signal) == s)
}

// The coefficient of signal s in the reduced form.
// Stays: 0 and no None where the row lacks s, since 0 is what the reduced form has there.
fn coef_of(row: &[Entry], s: u32) -> u32
    ensures { (p n : ℕ) (K : Constraint) → 0 < p → Row p n K row.now → 1 ≤ s → s ≤ n → result ≡ reduced p K s }
{
    entry_on(row, s).map_or(0, |entry| entry.coefficient)
}

// Rule 4.7 by a row: whether the digits rule is met for target t with reference r.
// Stays: parameters, as of `prepare`.
pub(crate) fn digits_met(
    part: &[u8],
    row: &[Entry],
    bounds: &[u32],
    marks: &[bool],
    p: u32,
    t: u32,
    r: u32,
) -> bool
    ensures { (n : ℕ) → Prime p → Row p n (constraint_in part.now) row.now → 1 ≤ t → t ≤ n → 1 ≤ r → r ≤ n
        → result ≡ rule.digits_met p n (constraint_in part.now) (bound_in p bounds.now) (mark_in marks.now) t r }
{
    if p == 0 || !is_linear(part) {
        return false;
    }
    if coef_of(row, t) == 0 {
        return false;
    }
    let coef = coef_of(row, r);
    if coef == 0 {
        return false;
    }
    let scale = inverse(p, coef);
    let mut room = DigitTerms::NONE;
    let added = add_up(row, bounds, marks, p, scale, &mut room);
    if u64::from(p) <= added.total {
        return false;
    }
    let digits = Digits {
        row,
        bounds,
        marks,
        p,
    };
    digits.coefs_differ() && stand_out(row, marks, added.digit_count, &room, p, scale)
}
