// A signal that a form names, the one unmarked signal of a row, and the reference by which a factor can be divided out.

ghost use Rattle.std.specs.Prelude.{◌≡◌, ℕ};
ghost use Rattle.circuit.specs.Circuit.{Constraint, WellFormedConstraint};
ghost use Rattle.circuit.specs.Reader.{form_in, constraint_in};
ghost use Rattle.rules.specs.View.{mark_in};
ghost use Rattle.rules.specs.Rows.{Row};
ghost use Rattle.solver.specs.Search.{SomeNamed, one_form, SomeLone, factor, SomeDivisor};

use circuit::form::{term_at, term_count};
use circuit::reader::{SIGNALS_MOST, after_form};
use rules::form::sole_signal;
use rules::rows::Entry;
use rules::view::mark_at;

// A signal that the form at the start of the part names. Signals above 256 are passed over.
pub(crate) fn signal_in(part: &[u8]) -> Option<u32>
    ensures { SomeNamed (form_in part.now) result }
{
    (0..term_count(part))
        .map(|i| term_at(part, i).signal)
        .find(|signal| (1..=SIGNALS_MOST).contains(signal))
}

// Whether these forms are one alone.
#[tactic(auto, unfolding(crate::specs::Search::one_form))]
fn is_one_form(forms: u8) -> bool
    ensures { result ≡ one_form forms }
{
    forms == Entry::IN_A || forms == Entry::IN_B || forms == Entry::IN_C
}

// The entry of the one unmarked signal of a row, if one form alone names it: where the constraint isn't linear, only such a signal can be the target
// of a product or a quotient step.
pub(crate) fn lone_entry(row: &[Entry], marks: &[bool]) -> Option<Entry>
    ensures { (p n : ℕ) (K : Constraint) → WellFormedConstraint n p K → Row p n K row.now
        → SomeLone p n K (mark_in marks.now) result }
{
    let mut found: Option<Entry> = None;
    for entry in row.iter().skip(1) {
        if entry.is_marked(marks) {
            continue;
        }
        if !is_one_form(entry.forms) {
            return None;
        }
        if found.is_some() {
            return None;
        }
        found = Some(*entry);
    }
    found
}

// The signal of a form's one term, if it has a nonzero mark.
fn divisor_of(form: &[u8], nonzeros: &[bool]) -> Option<u16>
    ensures { SomeDivisor (form_in form.now) (mark_in nonzeros.now) result }
{
    let signal = sole_signal(form)?;
    if signal == 0 || !mark_at(nonzeros, signal as usize) {
        return None;
    }
    Some(signal as u16)
}

// .. of the factor beside the one that these forms are.
pub(crate) fn divisor_beside(part: &[u8], forms: u8, nonzeros: &[bool]) -> Option<u16>
    ensures { SomeDivisor (factor forms (constraint_in part.now)) (mark_in nonzeros.now) result }
{
    if forms == Entry::IN_B {
        divisor_of(part, nonzeros)
    } else {
        divisor_of(after_form(part), nonzeros)
    }
}
