// The solver call: the circuit, the sheet and the buffer first, then the table of rows and the three phases, then the header and the answer.

ghost use Rattle.std.specs.Prelude.{◌≡◌, ℕ, ◌+◌, ◌*◌, ◌≤◌, ◌<◌, length};
ghost use Rattle.circuit.specs.Answer.{given, answer_by};
ghost use Rattle.laws.specs.Problem as laws;
ghost use Rattle.rules.specs.Rows.{places};
ghost use Rattle.rules.specs.Promise.{view};
ghost use Rattle.derivation.specs.Inner.{judged_by};
ghost use Rattle.solver.specs.Answer.{solved_in, paper_of};
ghost use Rattle.solver.specs.Call.{solver_call, solver_output};
ghost use Rattle.solver.specs.Demand.{Demand};
ghost use Rattle.solver.specs.Phases.{Taken};
ghost use Rattle.solver.specs.Table.{circuit_in, sizes_in};
ghost use Rattle.solver.specs.Inner.{Solves};

use crate::answer::{Solved, SolverAnswer};
use crate::bounds::{Phase, lower_bounds};
use crate::links::Link;
use crate::marks::add_marks;
use crate::nonzeros::exclude_zeros;
use crate::table::{Table, make_table};
use circuit::file::Constraints;
use circuit::refusal::{Reason, Refusal};
use derivation::marks::judgement_of;
use derivation::sheets::start_with;
use derivation::writer::{derivation_size, put_header};
use rules::rows::{Entry, FEW_ENTRIES, MOST_ENTRIES, places};
use rules::standing::Standing;
use tags::tagged::Tagged;

// What is answered of the standing after the last of so many steps.
fn told(tagged: &Tagged, last: &Standing, steps: u32) -> Solved
    ensures { let z = tagged.now.file.sizes in
        solved_in result ≡ record { judgement = judged_by z tagged.now.sheet.now (view z.p last.now); bytes = 7 + 7 * steps } }
{
    Solved {
        judgement: judgement_of(tagged, last),
        bytes: derivation_size(steps),
    }
}

// The bounds phase, then that of nonzero marks, then the marks phase. Steps are written as they are found.
fn take_phases(table: &Table, first: Standing, output: &mut [u8]) -> Phase
    requires { (s : ℕ) → (view (sizes_in table.now).p first).bound s < (sizes_in table.now).p }
    ensures { (f : ℕ → ℕ) → Taken (laws.given (circuit_in table.now) f) (view (sizes_in table.now).p first)
        (view (sizes_in table.now).p result.standing) output.old output.new result.count }
{
    let bounded = lower_bounds(table, first, output);
    let excluded = exclude_zeros(table, bounded, output);
    add_marks(table, excluded, output)
}

// The call past its refusals, with room for `N` entries of rows, which are enough. The answer is certain, so steps are written as they are found, the
// header last. Not inlined, so that what is refused doesn't take that room on the stack.
// Stays: rows and links side by side, since the marker's rows have no links; offsets are the circuit's, ends the rows'.
#[inline(never)]
fn solve_within<const N: usize>(tagged: &Tagged, output: &mut [u8]) -> Solved
    requires enough { places (length tagged.now.file.bytes.now) tagged.now.file.sizes.m ≤ N }
    requires few { N < 65536 }
    requires room { 7 + 21 * tagged.now.file.sizes.n ≤ length output.old }
    ensures { Solves tagged.now.file.bytes.now tagged.now.sheet.now output.old (given (solved_in result)) output.new }
{
    let file = tagged.file;
    let constraints = Constraints::new(file);
    let mut ends = [0; 513];
    let mut rows = [Entry::NONE; N];
    let mut lasts = [0; 257];
    let mut links = [Link::NONE; N];
    make_table(&constraints, &mut ends, &mut rows, &mut lasts, &mut links);
    let table = Table {
        constraints: &constraints,
        ends: &ends,
        rows: &rows,
        lasts: &lasts,
        links: &links,
    };
    let first = start_with(tagged.sheet, file.sizes.p, file.sizes.i);
    let last = take_phases(&table, first, output);
    let steps = last.count as u16;
    put_header(output, steps);
    told(tagged, &last.standing, last.count)
}

// The refusals in their order. A small file gets small arrays, since clearing large ones takes longer than solving it.
fn solved(circuit: &[u8], sheet: &[u8], output: &mut [u8]) -> Result<Solved, Refusal>
    ensures { Solves circuit.now sheet.now output.old (answer_by solved_in result) output.new }
{
    let tagged = Tagged::read(circuit, sheet)?;
    let file = tagged.file;
    if output.len() < derivation_size(3 * file.sizes.n) {
        return Err(Reason::OutputRoom.at(0));
    }
    if places(file.bytes.len(), file.sizes.m) <= FEW_ENTRIES {
        return Ok(solve_within::<FEW_ENTRIES>(&tagged, output));
    }
    Ok(solve_within::<MOST_ENTRIES>(&tagged, output))
}

// The solver call: refusals 1 to 10, 26, 27 and 25, or the best derivation written and what it marks and shows.
// Stays: the parameters of the C interface, here and in `solved`.
pub fn solve(circuit: &[u8], sheet: &[u8], output: &mut [u8]) -> SolverAnswer
    ensures answer { paper_of result ≡ solver_call circuit.now sheet.now (length output.old) }
    ensures written { output.new ≡ solver_output circuit.now sheet.now output.old }
    ensures demand { Demand circuit.now sheet.now output.old (paper_of result) output.new }
{
    SolverAnswer::from(solved(circuit, sheet, output))
}
