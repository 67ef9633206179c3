// What a sheet gives the standing at the start, and what the standing shows of it.

ghost use Rattle.std.specs.Prelude.{◌≡◌, ◌<◌, length};
ghost use Rattle.circuit.specs.Run.{values_in};
ghost use Rattle.tags.specs.Tag.{shown_by};
ghost use Rattle.tags.specs.Sheet.{sheet_of, Fitting};
ghost use Rattle.tags.specs.Answer.{shown_in};
ghost use Rattle.rules.specs.View.{bound_in};
ghost use Rattle.rules.specs.Promise.{view};
ghost use Rattle.derivation.specs.Inner.{first_view};

use circuit::reader::Sizes;
use rules::standing::Standing;
use tags::answer::Shown;
use tags::first::lower_inputs;
use tags::shown::show;

// Rule 3.2: the start, the bounds of inputs lowered to the limits of the tags on them.
pub fn start_with(sheet: &[u8], p: u32, i: u32) -> Standing
    ensures { view p result ≡ first_view p i sheet.now }
{
    let mut start = Standing::start(p, i);
    lower_inputs(sheet, &mut start.bounds, i);
    start
}

// Rule 6.10: what bounds show of a sheet; where its signals are among them, they are those of a standing.
pub fn shown_of(sheet: &[u8], bounds: &[u32], sizes: Sizes) -> Shown
    ensures all { shown_in result ≡ shown_by sizes.i (sheet_of sheet.now) (values_in bounds.now) }
    ensures fitting { Fitting sizes.n sizes.p (sheet_of sheet.now) → sizes.n < length bounds.now
        → shown_in result ≡ shown_by sizes.i (sheet_of sheet.now) (bound_in sizes.p bounds.now) }
{
    show(sheet, bounds, sizes.i)
}
