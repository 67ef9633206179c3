// The table that the phases work on: the rows of all constraints, made once per call and linked; and how a step is taken with it.

ghost use Rattle.std.specs.Prelude.{◌≡◌, ◌≤◌, ◌<◌, ◌+◌, ◌*◌, length};
ghost use Rattle.circuit.specs.Call.{circuit_of};
ghost use Rattle.rules.specs.Rows.{places};
ghost use Rattle.solver.specs.Links.{AllRows, Links, Blank, Made, Unlinked, Forgotten};

use crate::keys::Choice;
use crate::links::{Link, link_entries, own};
use circuit::file::Constraints;
use circuit::reader::Sizes;
use derivation::step::{Step, part_named};
use derivation::writer::put_step;
use rules::rows::{Entry, make_row, places, row_of, start_of};
use rules::standing::Standing;

// A circuit's constraints, their rows and where those end, each signal's last entry, and the links of the entries.
#[derive(Clone, Copy, Debug, PartialEq, Eq)]
pub(crate) struct Table<'a> {
    pub constraints: &'a Constraints<'a>,
    pub ends: &'a [u32; 513],
    pub rows: &'a [Entry],
    pub lasts: &'a [u16; 257],
    pub links: &'a [Link],
    ghost made: { AllRows (circuit_of constraints.now.file.bytes.now) constraints.now.offsets ends.now rows.now },
    ghost linked: { Links (circuit_of constraints.now.file.bytes.now) (places (length constraints.now.file.bytes.now) constraints.now.file.sizes.m)
        constraints.now.offsets ends.now rows.now lasts.now links.now },
}

impl<'a> Table<'a> {
    ghost use Rattle.rules.specs.Promise.{view};
    ghost use Rattle.derivation.specs.Steps.{head_size, step_size};
    ghost use Rattle.derivation.specs.Encoded.{step_bytes, stored};
    ghost use Rattle.solver.specs.Table.{circuit_in, sizes_in, part_in, row_in};
    ghost use Rattle.solver.specs.Choice.{step_of, Adds, TakenBy};

    // The part of the circuit bytes that starts at constraint k.
    pub fn part(&self, k: u32) -> &'a [u8]
        ensures { result.now ≡ part_in self.now k }
    {
        let constraints = self.constraints;
        constraints.part(k)
    }

    // The row of constraint k.
    pub fn row(&self, k: u32) -> &'a [Entry]
        ensures { result.now ≡ row_in self.now k }
    {
        let constraints = self.constraints;
        let ends = self.ends;
        let rows = self.rows;
        row_of(&constraints.offsets, ends, rows, k)
    }

    // Forgets what is kept of the constraints that name the signal.
    // Stays: `while`, since a walk along links has no range; and a test of the index, since nothing is known of a slice's elements after its `get_mut`.
    pub(crate) fn forget<T: Copy>(&self, kept: &mut [Option<T>], signal: u32)
        requires { (1 ≤ signal) × (signal ≤ (circuit_in self.now).n) }
        ensures { Forgotten (circuit_in self.now) signal kept.old kept.new }
    {
        let mut next = usize::from(self.lasts[signal as usize]);
        while 0 < next {
            let link = self.links[next - 1];
            let owner = usize::from(link.owner);
            if owner < kept.len() {
                kept[owner] = None;
            }
            next = usize::from(link.before);
        }
    }

    // Writes a step that adds as number `index`, counted from 0, and takes it. Inlined, so that the Outcome that it holds, 1.5 kB, is cleared once a phase and
    // not for each step.
    #[inline(always)]
    pub(crate) fn take(
        &self,
        standing: &mut Standing,
        choice: Choice,
        output: &mut [u8],
        index: u32,
    )
        requires { Adds (circuit_in self.now) (view (sizes_in self.now).p standing.old) (step_of choice) × (index ≤ 768) }
        ensures written { output.new ≡ stored output.old (head_size + step_size * index) (step_bytes (step_of choice)) }
        ensures taken { TakenBy (circuit_in self.now) (view (sizes_in self.now).p standing.old) (step_of choice) (view (sizes_in self.now).p standing.new) }
    {
        let key = choice.key;
        let target = key.target as u16;
        let constraint = choice.constraint as u16;
        let step = Step {
            kind: key.kind,
            target,
            constraint,
            reference: choice.reference,
        };
        put_step(output, index, step);
        let constraints = self.constraints;
        let file = constraints.file;
        let part = part_named(
            key.kind,
            file.bytes,
            &constraints.offsets,
            choice.constraint,
        );
        let row = self.row(choice.constraint);
        let outcome = standing.step(
            key.kind,
            part,
            row,
            file.sizes.p,
            key.target,
            u32::from(choice.reference),
        );
        *standing = outcome.next;
    }
}

// Makes the rows of all constraints, and notes whose entries they hold.
// Stays: constraints, ends and rows apart, since the kit proves no ghost field beside a lent slice that is written.
fn make_rows(constraints: &Constraints, ends: &mut [u32], rows: &mut [Entry], links: &mut [Link])
    requires { Blank (length constraints.now.file.bytes.now) constraints.now.file.sizes.m ends.old rows.old links.old }
    ensures { Made (circuit_of constraints.now.file.bytes.now) constraints.now.offsets constraints.now.file.sizes.m ends.new rows.new links.new }
{
    let file = constraints.file;
    for k in 1..=file.sizes.m {
        make_row(file.bytes, &constraints.offsets, ends, rows, file.sizes, k);
        let start = start_of(&constraints.offsets, k);
        let end = ends[k as usize] as usize;
        own(links, start, end, k as u16);
    }
}

// Makes the rows of all constraints and links their entries.
// Stays: as in `make_rows`, and so are lasts and links, two more lent slices that are written.
pub(crate) fn make_table(
    constraints: &Constraints,
    ends: &mut [u32],
    rows: &mut [Entry],
    lasts: &mut [u16],
    links: &mut [Link],
)
    requires { Blank (length constraints.now.file.bytes.now) constraints.now.file.sizes.m ends.old rows.old links.old
        × Unlinked constraints.now.file.sizes.n lasts.old }
    ensures rows { AllRows (circuit_of constraints.now.file.bytes.now) constraints.now.offsets ends.new rows.new }
    ensures links { Links (circuit_of constraints.now.file.bytes.now)
        (places (length constraints.now.file.bytes.now) constraints.now.file.sizes.m) constraints.now.offsets ends.new rows.new
        lasts.new links.new }
{
    make_rows(constraints, ends, rows, links);
    let file = constraints.file;
    let end = places(file.bytes.len(), file.sizes.m);
    link_entries(rows, lasts, links, end);
}
