// Reading a tag sheet: refusals 26 and 27.
// Stays: sheet and sizes as parameters, those of the public `check_sheet`: no fact joins them before it has answered.

ghost use Rattle.std.specs.Prelude.{◌≡◌};
ghost use Rattle.circuit.specs.Runs.{first_from, found};
ghost use Rattle.circuit.specs.Answer.{answer_by};
ghost use Rattle.tags.specs.Sheet.{entry_fits, framed, sheet_of, sheet_on, FittingAnswer};

use crate::tag::{ENTRY_SIZE, Tag};
use circuit::bytes::u16_at;
use circuit::reader::{Sizes, has_mark, has_version};
use circuit::refusal::{Reason, Refusal};

// The letter T of a sheet's mark, and the sizes of rule 2.5.
const SHEET_LETTER: u32 = b'T' as u32;

pub const SHEET_HEADER: usize = 7;

pub const ENTRIES_MOST: u32 = 256;

// How many entries there are.
#[tactic(auto, unfolding(crate::specs::Sheet::sheet_of))]
pub(crate) fn count_of(sheet: &[u8]) -> u32
    ensures { result ≡ (sheet_of sheet.now).count }
{
    u16_at(sheet, 5)
}

// Whether entry k doesn't meet refusal 27.
#[tactic(auto, unfolding(crate::specs::Sheet::entry_fits))]
fn entry_fits(sheet: &[u8], sizes: Sizes, k: u32) -> bool
    ensures { result ≡ entry_fits sizes.n sizes.p sheet.now k }
{
    Tag::read(sheet, k).is_some_and(|tag| tag.fits(sizes.n, sizes.p))
}

// The first entry that meets refusal 27.
fn first_wrong(sheet: &[u8], sizes: Sizes) -> Option<u32>
    ensures { result ≡ found (first_from (entry_fits sizes.n sizes.p sheet.now) 1 (sheet_of sheet.now).count) }
{
    (1..=count_of(sheet)).find(|k| !entry_fits(sheet, sizes, *k))
}

// Whether a sheet doesn't meet refusal 26: its mark, version, count and length are right.
#[tactic(auto, unfolding(crate::specs::Sheet::framed, crate::specs::Sheet::sheet_of))]
fn is_framed(sheet: &[u8]) -> bool
    ensures { result ≡ framed sheet.now }
{
    let count = count_of(sheet);
    SHEET_HEADER <= sheet.len()
        && has_mark(sheet, SHEET_LETTER)
        && has_version(sheet)
        && count <= ENTRIES_MOST
        && sheet.len() == SHEET_HEADER + ENTRY_SIZE * (count as usize)
}

// The check of a sheet for a circuit with these sizes: refusals 26 and 27.
#[tactic(auto, using(circuit::proofs::FindLaws::asks), unfolding(crate::specs::Sheet::sheet_on, crate::specs::Sheet::sheet_of))]
pub fn check_sheet(sheet: &[u8], sizes: Sizes) -> Result<(), Refusal>
    ensures answer { answer_by (λ done. sheet_of sheet.now) result ≡ sheet_on sizes sheet.now }
    ensures fitting { FittingAnswer sizes (answer_by (λ done. sheet_of sheet.now) result) }
{
    if !is_framed(sheet) {
        return Err(Reason::SheetFrame.at(0));
    }
    match first_wrong(sheet, sizes) {
        Some(k) => Err(Reason::SheetEntry.at(k as usize)),
        None => Ok(()),
    }
}
