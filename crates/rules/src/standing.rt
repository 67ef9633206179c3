// The standing: a bound, a mark and a nonzero mark for each of up to 256 signals, and a method for each rule that gives the next standing.

ghost use Rattle.std.specs.Prelude.{◌≡◌, List, [], ℕ, Bool, cond, ◌<◌, min, length};
ghost use Rattle.laws.specs.Problem.{largest};
ghost use Rattle.laws.specs.Standing.{is_input, none_of, at_most, fixed, not_zero};
ghost use Rattle.laws.specs.Step as laws;
ghost use Rattle.laws.specs.Step.{rule};
ghost use Rattle.rules.specs.View.{view_of};
ghost use Rattle.rules.specs.Promise.{view, subject_in, Told, Flagged, Gives, bound_given, kind_of, reduces, Asked};

use crate::constraint::{nonzero_met, product_met, quotient_met, root_bound, root_met};
use crate::digits::digits_met;
use crate::rows::Entry;
use crate::sums::sum_step;
use crate::view::bound_at;
use circuit::reader::SIGNALS_MOST;
use std::fmt;

// Rule 3.1. Signal 0 is the constant one; bounds and marks of both sorts of signals above 256 are those of the start.
// Stays: three arrays by value, a form of docs/DECISIONS.md.
#[derive(Clone, Copy, Debug, PartialEq, Eq)]
pub struct Standing {
    pub bounds: [u32; 257],
    pub marks: [bool; 257],
    pub nonzeros: [bool; 257],
}

// What a step gives: the next standing, and whether the step is idle; None where it doesn't meet its rule, and the standing is then as it was.
// Stays: the standing beside the Option, since an Option of both is cleared and copied at every match: 70 to 90 ns more a step, renewals of 4,096 steps
// 1.4 to 1.8 times as long.
#[derive(Clone, Copy, Debug, PartialEq, Eq)]
pub struct Outcome {
    pub next: Standing,
    pub idle: Option<bool>,
}

// Rule 2.2: the kinds of steps, in the order of their numbers.
#[derive(Clone, Copy, Debug, PartialEq, Eq, PartialOrd, Ord)]
pub enum Kind {
    Root = 1,
    Sum,
    Zero,
    Product,
    Digits,
    Nonzero,
    Quotient,
}

impl Kind {
    ghost use Rattle.laws.specs.Step.{kind_number};

    // Stays: the cast of the discriminant is the conversion; a From would say it again.
    pub fn number(self) -> u8
        ensures { result ≡ kind_number (kind_of self) }
    {
        self as u8
    }
}

// Stays: written by hand, since std derives no Display.
impl fmt::Display for Kind {
    fn fmt<W: fmt::Write>(&self, f: &mut fmt::Formatter<W>) -> fmt::Result {
        f.write_str(match self {
            Kind::Root => "root",
            Kind::Sum => "sum",
            Kind::Zero => "zero",
            Kind::Product => "product",
            Kind::Digits => "digits",
            Kind::Nonzero => "nonzero",
            Kind::Quotient => "quotient",
        })
    }
}

// Rule 4.3: the bound that the root rule gives, if it is met.
fn root_step(part: &[u8], p: u32, t: u32) -> Option<u32>
    ensures { result ≡ bound_given (rule laws.Root (subject_in p 0 part.now) (view_of p [] [] []) t 0) }
{
    if !root_met(part, t) {
        return None;
    }
    Some(root_bound(part, p, t))
}

// Rule 3.3: sets the flag of t, if the rule is met, and tells whether it was set.
fn set_flag(flags: &mut [bool], t: u32, met: bool) -> Option<bool>
    ensures { t < length flags.old → Flagged result flags.new flags.old t met }
{
    if !met {
        return None;
    }
    let at = t as usize;
    let mut was = true;
    // Stays: as in `lower`.
    if at < flags.len() {
        was = flags[at];
        flags[at] = true;
    }
    Some(was)
}

impl Standing {
    // Rule 3.2: every bound is p - 1, exactly the inputs 1 to i are marked, and there are no nonzero marks.
    pub fn start(p: u32, i: u32) -> Standing
        ensures { view p result ≡ record { bound = largest p; marked = is_input (min i 256); nonzero = none_of } }
    {
        let bounds = if p == 0 { [0; 257] } else { [p - 1; 257] };
        let mut marks = [false; 257];
        marks[1..=i.min(SIGNALS_MOST) as usize].fill(true);
        Standing {
            bounds,
            marks,
            nonzeros: [false; 257],
        }
    }

    // Rules 3.3 and 3.4: t's bound becomes at most what the rule gives, if it is met; idle where it is already.
    fn lower(&mut self, t: u32, most: Option<u32>) -> Option<bool>
        ensures { (p v : ℕ) (met : Bool) → most ≡ cond met (Some v) None → t < 257
            → Told result (view p self.new) (view p self.old) t (record { met = met; change = at_most v }) }
    {
        let most = most?;
        let at = t as usize;
        let mut idle = true;
        // Stays: a test and a store, since nothing is known of a slice's elements after its `get_mut`.
        if at < self.bounds.len() {
            let bound = self.bounds[at];
            idle = bound <= most;
            self.bounds[at] = bound.min(most);
        }
        Some(idle)
    }

    // Rules 3.3 and 3.4: t becomes marked, if the rule is met; idle where it is already.
    fn mark(&mut self, t: u32, met: bool) -> Option<bool>
        ensures { (p : ℕ) → t < 257 → Told result (view p self.new) (view p self.old) t (record { met = met; change = fixed }) }
    {
        set_flag(&mut self.marks, t, met)
    }

    // Rules 3.3 and 3.4: t gets a nonzero mark, if the rule is met; idle where it has one already.
    fn exclude_zero(&mut self, t: u32, met: bool) -> Option<bool>
        ensures { (p : ℕ) → t < 257 → Told result (view p self.new) (view p self.old) t (record { met = met; change = not_zero }) }
    {
        set_flag(&mut self.nonzeros, t, met)
    }

    // Rules 4.3 to 4.9: a method for each kind, by its row in the table of rules. No target in range is above 256. They are inlined, as `step` is, so that a
    // step copies the standing fewer times.
    // Stays: up to six parameters here and in `step`: just what a rule looks at (docs/DECISIONS.md, Forms).

    #[inline(always)]
    pub fn root(mut self, part: &[u8], p: u32, t: u32) -> Outcome
        ensures { (n r : ℕ) (row : List Entry) → Asked laws.Root p n part.now row t r
            → Gives p result (view p self) t (rule laws.Root (subject_in p n part.now) (view p self) t r) }
    {
        let bound = root_step(part, p, t);
        let idle = self.lower(t, bound);
        Outcome { next: self, idle }
    }

    #[inline(always)]
    pub fn sum(mut self, part: &[u8], row: &[Entry], p: u32, t: u32) -> Outcome
        ensures { (n r : ℕ) → Asked laws.Sum p n part.now row.now t r
            → Gives p result (view p self) t (rule laws.Sum (subject_in p n part.now) (view p self) t r) }
    {
        let total = sum_step(part, row, &self.bounds, p, t);
        let idle = self.lower(t, total);
        Outcome { next: self, idle }
    }

    #[inline(always)]
    pub fn zero(mut self, p: u32, t: u32) -> Outcome
        ensures { (n r : ℕ) (part : List ℕ) (row : List Entry) → Asked laws.Zero p n part row t r
            → Gives p result (view p self) t (rule laws.Zero (subject_in p n part) (view p self) t r) }
    {
        let met = bound_at(&self.bounds, t as usize, p) == 0;
        let idle = self.mark(t, met);
        Outcome { next: self, idle }
    }

    #[inline(always)]
    pub fn product(mut self, part: &[u8], t: u32) -> Outcome
        ensures { (p n r : ℕ) (row : List Entry) → Asked laws.Product p n part.now row t r
            → Gives p result (view p self) t (rule laws.Product (subject_in p n part.now) (view p self) t r) }
    {
        let met = product_met(part, &self.marks, t);
        let idle = self.mark(t, met);
        Outcome { next: self, idle }
    }

    #[inline(always)]
    pub fn digits(mut self, part: &[u8], row: &[Entry], p: u32, t: u32, r: u32) -> Outcome
        ensures { (n : ℕ) → Asked laws.Digits p n part.now row.now t r
            → Gives p result (view p self) t (rule laws.Digits (subject_in p n part.now) (view p self) t r) }
    {
        let met = digits_met(part, row, &self.bounds, &self.marks, p, t, r);
        let idle = self.mark(t, met);
        Outcome { next: self, idle }
    }

    #[inline(always)]
    pub fn nonzero(mut self, part: &[u8], t: u32) -> Outcome
        ensures { (p n r : ℕ) (row : List Entry) → Asked laws.Nonzero p n part.now row t r
            → Gives p result (view p self) t (rule laws.Nonzero (subject_in p n part.now) (view p self) t r) }
    {
        let met = nonzero_met(part, t);
        let idle = self.exclude_zero(t, met);
        Outcome { next: self, idle }
    }

    #[inline(always)]
    pub fn quotient(mut self, part: &[u8], t: u32, r: u32) -> Outcome
        ensures { (p n : ℕ) (row : List Entry) → Asked laws.Quotient p n part.now row t r
            → Gives p result (view p self) t (rule laws.Quotient (subject_in p n part.now) (view p self) t r) }
    {
        let met = quotient_met(part, &self.marks, &self.nonzeros, t, r);
        let idle = self.mark(t, met);
        Outcome { next: self, idle }
    }

    // A step of any kind, by the method of its rule, by the constraint at the start of the part and its row, at which only some rules look. Fast where the
    // caller's loop calls it itself: a function that is called for each step and holds the Outcome clears its 1.5 kB first.
    #[inline(always)]
    pub fn step(self, kind: Kind, part: &[u8], row: &[Entry], p: u32, t: u32, r: u32) -> Outcome
        ensures { (n : ℕ) → Asked (kind_of kind) p n part.now row.now t r
            → Gives p result (view p self) t (rule (kind_of kind) (subject_in p n part.now) (view p self) t r) }
    {
        match kind {
            Kind::Root => self.root(part, p, t),
            Kind::Sum => self.sum(part, row, p, t),
            Kind::Zero => self.zero(p, t),
            Kind::Product => self.product(part, t),
            Kind::Digits => self.digits(part, row, p, t, r),
            Kind::Nonzero => self.nonzero(part, t),
            Kind::Quotient => self.quotient(part, t, r),
        }
    }
}

// Whether the rule of this kind looks at the row.
pub fn reads_row(kind: Kind) -> bool
    ensures { result ≡ reduces (kind_of kind) }
{
    matches!(kind, Kind::Sum | Kind::Digits)
}
