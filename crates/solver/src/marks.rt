// The marks phase: marks signals, each by the first step that marks any, until none is left.

ghost use Rattle.std.specs.Prelude.{ℕ, ◌*◌, ◌≤◌};
ghost use Rattle.laws.specs.Problem.{given};
ghost use Rattle.rules.specs.Promise.{view};
ghost use Rattle.solver.specs.Phases.{Marked};
ghost use Rattle.solver.specs.Table.{circuit_in, sizes_in};

use crate::bounds::Phase;
use crate::keys::nothing;
use crate::marking::lowest_key;
use crate::table::Table;

// Marks signals until no step marks any, writes the steps after those of the phase before, and counts all. Not inlined, so that its candidates,
// 10 kB, aren't on the stack in the phase before.
// Stays: a loop like that of `lower_bounds`, for the reason given there.
#[inline(never)]
pub(crate) fn add_marks(table: &Table, before: Phase, output: &mut [u8]) -> Phase
    requires { before.count ≤ 2 * (sizes_in table.now).n }
    ensures { (f : ℕ → ℕ) → Marked (given (circuit_in table.now) f) (view (sizes_in table.now).p before.standing)
        (view (sizes_in table.now).p result.standing) output.old output.new before.count result.count }
{
    let mut standing = before.standing;
    let mut kept = nothing();
    let most = table.constraints.file.sizes.n;
    for turn in 0..most {
        let count = before.count + turn;
        let Some(choice) = lowest_key(table, &standing, &mut kept) else {
            return Phase { standing, count };
        };
        table.take(&mut standing, choice, output, count);
        table.forget(&mut kept, choice.key.target);
    }
    Phase {
        standing,
        count: before.count + most,
    }
}
