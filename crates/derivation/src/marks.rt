// What an accepted derivation hands over: the marks, written and counted, the verdict, and what is shown of the sheet.

ghost use Rattle.std.specs.Prelude.{◌≡◌, ◌++◌, ◌≤◌, ◌<◌, length, drop};
ghost use Rattle.laws.specs.Sum.{all};
ghost use Rattle.rules.specs.View.{mark_in};
ghost use Rattle.rules.specs.Promise.{view};
ghost use Rattle.derivation.specs.Call.{marks_from, total, output_marked, verdict_by};
ghost use Rattle.derivation.specs.Answer.{verdict_in, judgement_in};
ghost use Rattle.derivation.specs.Inner.{judged_by};

use crate::answer::{Judgement, Verdict};
use crate::sheets::shown_of;
use circuit::reader::Sizes;
use rules::standing::Standing;
use rules::view::mark_at;
use tags::tagged::Tagged;

// Writes one byte for each of the n signals, 1 for marked and 0 for not.
// Stays: an index for both; with `enumerate` over the bytes the marks would be indexed all the same, and nothing is known of the bytes after a `zip`.
fn write_marks(out: &mut [u8], marks: &[bool], n: u32)
    requires { (n < length marks.now) × (n ≤ length out.old) }
    ensures { out.new ≡ marks_from (mark_in marks.now) 0 n ++ drop n out.old }
{
    for s in 0..n as usize {
        out[s] = u8::from(marks[s + 1]);
    }
}

// How many of the signals 1 to n are marked.
pub fn count_marks(marks: &[bool], n: u32) -> u32
    ensures { result ≡ total (marks_from (mark_in marks.now) 0 n) }
{
    let marked = marks.iter().skip(1).take(n as usize).filter(|mark| **mark);
    marked.count() as u32
}

// Whether the o signals after signal i are marked.
fn all_marked(marks: &[bool], i: u32, o: u32) -> bool
    ensures { result ≡ all o (output_marked (mark_in marks.now) i) }
{
    (0..o).all(|j| mark_at(marks, i as usize + j as usize + 1))
}

// Whether every output is marked.
pub fn verdict_of(marks: &[bool], sizes: Sizes) -> Verdict
    ensures { verdict_in result ≡ verdict_by (all sizes.o (output_marked (mark_in marks.now) sizes.i)) }
{
    if all_marked(marks, sizes.i, sizes.o) {
        Verdict::Fixed
    } else {
        Verdict::Open
    }
}

// What is answered of the standing after the last step.
pub fn judgement_of(tagged: &Tagged, last: &Standing) -> Judgement
    ensures { let z = tagged.now.file.sizes in
        judgement_in result ≡ judged_by z tagged.now.sheet.now (view z.p last.now) }
{
    let sizes = tagged.file.sizes;
    Judgement {
        count: count_marks(&last.marks, sizes.n),
        verdict: verdict_of(&last.marks, sizes),
        shown: shown_of(tagged.sheet, &last.bounds, sizes),
    }
}

// What is answered and written of the standing after the last step.
pub(crate) fn hand_over(tagged: &Tagged, last: &Standing, marks: &mut [u8]) -> Judgement
    requires { tagged.now.file.sizes.n ≤ length marks.old }
    ensures answer { let z = tagged.now.file.sizes in
        judgement_in result ≡ judged_by z tagged.now.sheet.now (view z.p last.now) }
    ensures written { let n = tagged.now.file.sizes.n in
        marks.new ≡ marks_from (mark_in last.now.marks) 0 n ++ drop n marks.old }
{
    write_marks(marks, &last.marks, tagged.file.sizes.n);
    judgement_of(tagged, last)
}
