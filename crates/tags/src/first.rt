// The first bounds of tagged inputs, and the first input whose value breaks a tag on it.

ghost use Rattle.std.specs.Prelude.{◌≡◌, min};
ghost use Rattle.circuit.specs.Reader.{signals_most};
ghost use Rattle.circuit.specs.Run.{values_in};
ghost use Rattle.circuit.specs.Runs.{first_from, found};
ghost use Rattle.tags.specs.Tag.{kept};
ghost use Rattle.tags.specs.Sheet.{sheet_of};
ghost use Rattle.tags.specs.Answer.{LoweredBy, Lowered};

use crate::sheet::count_of;
use crate::tag::Tag;
use circuit::reader::SIGNALS_MOST;
use circuit::run::value_of;

// Lowers the bound of tag k's signal to its limit, where that is an input, 1 to i.
// Stays: a test and a store, since nothing is known of a slice after its `get_mut`.
fn lower_by(sheet: &[u8], bounds: &mut [u32], i: u32, k: u32)
    ensures { LoweredBy i ((sheet_of sheet.now).tag k) bounds.old bounds.new }
{
    if let Some(tag) = Tag::read(sheet, k) {
        let s = tag.signal as usize;
        if (1..=i).contains(&tag.signal) && s < bounds.len() {
            bounds[s] = bounds[s].min(tag.limit());
        }
    }
}

// Rule 3.2: lowers the bound of each input, 1 to i, to the limits of all tags on it.
// Stays: a public function that asks nothing of the bytes; a struct of a circuit and its sheet would ask more of its callers.
pub fn lower_inputs(sheet: &[u8], bounds: &mut [u32], i: u32)
    ensures { Lowered i (sheet_of sheet.now) bounds.old bounds.new }
{
    for k in 1..=count_of(sheet) {
        lower_by(sheet, bounds, i, k);
    }
}

// Refusal 28: the first of the inputs 1 to i, up to 256, whose value exceeds the limit of a tag on it.
pub fn first_broken(sheet: &[u8], values: &[u32], i: u32) -> Option<u32>
    ensures { result ≡ found (first_from (kept (sheet_of sheet.now) (values_in values.now)) 1 (min i signals_most)) }
{
    let mut limits = [u32::MAX; 257];
    lower_inputs(sheet, &mut limits, i);
    (1..=i.min(SIGNALS_MOST)).find(|s| value_of(&limits, *s) < value_of(values, *s))
}
