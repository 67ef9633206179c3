// Rows of constraints, made when they are first asked for: the constant and the signals that a constraint names, each with the forms that name it
// and its coefficient.

ghost use Rattle.std.specs.Prelude.{◌≡◌, ◌||◌, cond, ltb, eqb, suc, ◌+◌, ◌≤◌, ◌<◌, length, set};
ghost use Rattle.circuit.specs.Reader.{signals_most, constraint_in};
ghost use Rattle.circuit.specs.Call.{circuit_of, Sized};
ghost use Rattle.circuit.specs.Offsets.{Offsets};
ghost use Rattle.rules.specs.View.{bound_in, mark_in};
ghost use Rattle.rules.specs.Rows.{rank, stands, start_of, row_of, places, at, Rows, Roomy, Put, RowMade};

use crate::reduced::reduced_form;
use crate::view::{bound_at, mark_at};
use circuit::offsets::part_of;
use circuit::reader::{CONSTRAINTS_MOST, FILE_MOST, SIGNALS_MOST, Sizes, TERM_SIZE};

// What a row holds of a signal, 0 for the constant: its coefficient in the reduced form, and the forms that name it, 1 for A, 2 for B and
// 4 for C, added.
// Stays: the forms are one number, since with a flag for each an entry would take 12 bytes in place of 8 (docs/DECISIONS.md, Choices of design, 8).
#[derive(Clone, Copy, Debug, PartialEq, Eq)]
pub struct Entry {
    pub coefficient: u32,
    pub signal: u16,
    pub forms: u8,
}

impl Entry {
    // The constant, named by no form: what fills an array of rows.
    // Stays: a constant for the value that an array is filled with; a derived `Default` would give the same zeros under a name that says less.
    pub const NONE: Entry = Entry {
        coefficient: 0,
        signal: 0,
        forms: 0,
    };

    // Each form that names a signal, as a bit of the entry's forms.
    pub const IN_A: u8 = 1;

    pub const IN_B: u8 = 2;

    pub const IN_C: u8 = 4;

    // The bound of its signal.
    pub fn bound(self, bounds: &[u32], p: u32) -> u32
        ensures { result ≡ bound_in p bounds.now self.signal }
    {
        bound_at(bounds, self.signal as usize, p)
    }

    // The mark of its signal.
    pub fn is_marked(self, marks: &[bool]) -> bool
        ensures { result ≡ mark_in marks.now self.signal }
    {
        mark_at(marks, self.signal as usize)
    }
}

// How many places for entries the rows of a circuit lie in: one for each six of its bytes, one for each of its m constraints, and one more.
pub fn places(bytes: usize, m: u32) -> usize
    ensures { result ≡ places bytes m }
{
    bytes / TERM_SIZE + m as usize + 1
}

// The places of every circuit, of at most 60,000 bytes and 512 constraints.
pub const MOST_ENTRIES: usize = FILE_MOST / TERM_SIZE + CONSTRAINTS_MOST as usize + 1;

// The places of a small circuit; clearing more takes longer than a few steps.
pub const FEW_ENTRIES: usize = 512;

// Whether a signal that these forms name has an entry; the constant has one in any case.
fn has_entry(signal: u32, forms: u8) -> bool
    ensures { result ≡ (eqb signal 0 || ltb 0 forms) }
{
    signal == 0 || 0 < forms
}

// Puts an entry at the end, if there is room, and answers the new end.
// Stays: a test and a store, since nothing is known of a slice's elements after its `get_mut`.
fn put(rows: &mut [Entry], end: usize, entry: Entry) -> usize
    ensures { (result ≡ cond (ltb end (length rows.old)) (end + 1) end)
        × (rows.new ≡ cond (ltb end (length rows.old)) (set rows.old end entry) rows.old) }
{
    if end < rows.len() {
        rows[end] = entry;
        end + 1
    } else {
        end
    }
}

// Puts the row of the constraint at the start of the part, as far as there is room, and answers its end.
fn put_row(rows: &mut [Entry], start: usize, part: &[u8], n: u32, p: u32) -> usize
    requires { (n ≤ signals_most) × (start < 4294967296) }
    ensures { (result ≤ start + (n + 1))
        × (1 < p → start + rank (stands (constraint_in part.now)) (suc n) ≤ length rows.old
        → Put p (suc n) (constraint_in part.now) start result rows.old rows.new) }
{
    let mut reduced = [Entry::NONE; 257];
    reduced_form(&mut reduced, part, p);
    let mut end = start;
    for signal in 0..=n {
        if has_entry(signal, reduced[signal as usize].forms) {
            let entry = Entry {
                signal: signal as u16,
                ..reduced[signal as usize]
            };
            end = put(rows, end, entry);
        }
    }
    end
}

// The number at a place, 0 past the end.
#[tactic(auto, unfolding(crate::specs::Rows::at))]
fn number_at(list: &[u32], i: usize) -> usize
    ensures { (result ≡ at list.now i) × (result < 4294967296) }
{
    list.get(i).copied().unwrap_or(0) as usize
}

// Where row k starts.
#[tactic(auto, unfolding(crate::specs::Rows::start_of))]
pub fn start_of(table: &[u32], k: u32) -> usize
    ensures { (result ≡ start_of table.now k) × (result ≤ 715827882 + k) }
{
    number_at(table, k as usize) / TERM_SIZE + k as usize
}

// Makes the row of constraint k, unless it has been made; the end of a row that hasn't is 0, and no row's end is, since the constant has an entry.
// Stays: bytes, table and sizes apart, since a public function that takes any of them asks nothing of callers, and a `Constraints` would; ends and rows
// apart, since the kit proves no ghost field beside a lent slice that is written.
pub fn make_row(
    circuit: &[u8],
    table: &[u32],
    ends: &mut [u32],
    rows: &mut [Entry],
    sizes: Sizes,
    k: u32,
)
    ensures { Sized circuit.now sizes → Offsets circuit.now sizes.m table.now
        → Roomy (length circuit.now) sizes.m ends.old rows.old → 1 ≤ k → k ≤ sizes.m
        → Rows (circuit_of circuit.now) table.now ends.old rows.old
        → RowMade (circuit_of circuit.now) table.now k ends.old rows.old ends.new rows.new }
{
    let place = k as usize;
    if ends.len() <= place || SIGNALS_MOST < sizes.n || CONSTRAINTS_MOST < k {
        return;
    }
    // Stays: 0 and no None; an Option would take 8 bytes for 4, 513 times, and `row_of` reads 0 as the empty row.
    if ends[place] != 0 {
        return;
    }
    let part = part_of(circuit, table, k);
    let start = start_of(table, k);
    let end = put_row(rows, start, part, sizes.n, sizes.p);
    ends[place] = end as u32;
}

// The entries of row k; for all arguments.
pub fn row_of<'a>(table: &[u32], ends: &[u32], rows: &'a [Entry], k: u32) -> &'a [Entry]
    ensures { result.now ≡ row_of table.now ends.now rows.now k }
{
    let end = number_at(ends, k as usize).min(rows.len());
    let start = start_of(table, k).min(end);
    &rows[start..end]
}
