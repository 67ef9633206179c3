// Which tags bounds show.

ghost use Rattle.std.specs.Prelude.{◌≡◌, cond, Some, None};
ghost use Rattle.circuit.specs.Run.{values_in};
ghost use Rattle.circuit.specs.Runs.{first_from, found};
ghost use Rattle.tags.specs.Tag.{on_other, is_shown, shown_of, not_missed, shown_by};
ghost use Rattle.tags.specs.Sheet.{sheet_of};
ghost use Rattle.tags.specs.Answer.{tag_of, shown_in};

use crate::answer::Shown;
use crate::sheet::count_of;
use crate::tag::Tag;
use circuit::run::value_of;

impl Tag {
    // Whether bounds show the tag.
    #[tactic(auto, using(crate::proofs::TagLaws::leb_capped), unfolding(crate::specs::Tag::is_shown))]
    fn is_shown(self, bounds: &[u32]) -> bool
        ensures { result ≡ is_shown (values_in bounds.now) (tag_of self) }
    {
        value_of(bounds, self.signal) <= self.limit()
    }
}

// A sheet, the bounds that are to show its tags, and how many inputs there are.
#[derive(Clone, Copy, Debug, PartialEq, Eq)]
struct Showing<'a> {
    sheet: &'a [u8],
    bounds: &'a [u32],
    inputs: u32,
}

impl<'a> Showing<'a> {
    // Whether tag k is shown, where it is on a signal other than an input.
    #[tactic(auto, unfolding(crate::specs::Sheet::sheet_of, crate::specs::Sheet::tag_in, crate::specs::Tag::on_other))]
    fn shown_at(&self, k: u32) -> Option<bool>
        ensures { let t = (sheet_of self.now.sheet.now).tag k in
            result ≡ cond (on_other self.now.inputs t) (Some (is_shown (values_in self.now.bounds.now) t)) None }
    {
        let tag = Tag::read(self.sheet, k)?;
        if tag.signal <= self.inputs {
            return None;
        }
        Some(tag.is_shown(self.bounds))
    }

    // How many tags on signals other than inputs are shown.
    fn count_shown(&self) -> u32
        ensures { let T = sheet_of self.now.sheet.now in result ≡ shown_of self.now.inputs (values_in self.now.bounds.now) T.tag T.count }
    {
        (1..=count_of(self.sheet))
            .filter(|k| self.shown_at(*k) == Some(true))
            .count() as u32
    }

    // The first of them that isn't shown.
    fn first_missed(&self) -> Option<u32>
        ensures { let T = sheet_of self.now.sheet.now in
            result ≡ found (first_from (not_missed self.now.inputs (values_in self.now.bounds.now) T.tag) 1 T.count) }
    {
        (1..=count_of(self.sheet)).find(|k| self.shown_at(*k) == Some(false))
    }
}

// Rule 6.10, for i inputs.
// Stays: a public function that asks nothing of the bytes; a struct of a circuit and its sheet would ask more of its callers.
#[tactic(auto, using(crate::proofs::ShownLaws::found_number), unfolding(crate::specs::Tag::shown_by))]
pub fn show(sheet: &[u8], bounds: &[u32], i: u32) -> Shown
    ensures { shown_in result ≡ shown_by i (sheet_of sheet.now) (values_in bounds.now) }
{
    let showing = Showing {
        sheet,
        bounds,
        inputs: i,
    };
    Shown {
        count: showing.count_shown(),
        missed: showing.first_missed(),
    }
}
