// The derivation call: the frame of the file, the steps one after the other, then the marks.

ghost use Rattle.std.specs.Prelude.{◌≡◌, length};
ghost use Rattle.circuit.specs.Answer.{answer_by};
ghost use Rattle.derivation.specs.Call.{derivation_call, derivation_marks};
ghost use Rattle.derivation.specs.Exact.{ExactCall, SoundCall};
ghost use Rattle.derivation.specs.Answer.{judgement_in, paper_of};
ghost use Rattle.derivation.specs.Inner.{Answers};

use crate::answer::{DerivationAnswer, Judgement};
use crate::file::DerivationFile;
use crate::marks::hand_over;
use crate::sheets::start_with;
use crate::walk::{IdleSteps, walk_file};
use circuit::refusal::{Reason, Refusal};
use tags::tagged::Tagged;

// The refusals in their order. Nothing is written before the steps have come to their end.
fn judged(
    circuit: &[u8],
    sheet: &[u8],
    derivation: &[u8],
    marks: &mut [u8],
) -> Result<Judgement, Refusal>
    ensures { Answers circuit.now sheet.now derivation.now marks.old (answer_by judgement_in result) marks.new }
{
    let tagged = Tagged::read(circuit, sheet)?;
    let derivation = DerivationFile::read(derivation)?;
    let file = tagged.file;
    if marks.len() < file.sizes.n as usize {
        return Err(Reason::MarksRoom.at(0));
    }
    let mut standing = start_with(tagged.sheet, file.sizes.p, file.sizes.i);
    walk_file(
        &file,
        derivation.bytes,
        &mut [],
        IdleSteps::Refused,
        &mut standing,
    )?;
    Ok(hand_over(&tagged, &standing, marks))
}

// The derivation call: refusals 1 to 10, 26, 27, 11 to 17 and 29, or the marks written, how many signals are marked, the verdict, and what is shown.
// Stays: the parameters of the C interface, here and in `judged`.
pub fn check_derivation(
    circuit: &[u8],
    sheet: &[u8],
    derivation: &[u8],
    marks: &mut [u8],
) -> DerivationAnswer
    ensures answer { paper_of result
        ≡ derivation_call circuit.now sheet.now derivation.now (length marks.old) }
    ensures written { marks.new
        ≡ derivation_marks circuit.now sheet.now derivation.now marks.old }
    ensures exact { ExactCall circuit.now sheet.now derivation.now (length marks.old) (paper_of result) }
    ensures sound { SoundCall circuit.now sheet.now derivation.now (paper_of result) marks.new }
{
    DerivationAnswer::from(judged(circuit, sheet, derivation, marks))
}
