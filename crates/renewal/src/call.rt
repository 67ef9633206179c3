// The renewal call: the frame of the file, its steps, idle ones let pass, then those that aren't idle.

ghost use Rattle.std.specs.Prelude.{◌≡◌, length};
ghost use Rattle.circuit.specs.Answer.{answer_of};
ghost use Rattle.renewal.specs.Call.{renewal_call, renewal_output};
ghost use Rattle.renewal.specs.Renewed.{RenewedCall};
ghost use Rattle.renewal.specs.Answer.{paper_of};
ghost use Rattle.renewal.specs.Inner.{Renews};

use crate::answer::RenewalAnswer;
use crate::copy::copy_steps;
use circuit::refusal::{Reason, Refusal};
use derivation::file::DerivationFile;
use derivation::sheets::start_with;
use derivation::walk::{IdleSteps, STEPS_MOST, walk_file};
use derivation::writer::derivation_size;
use tags::tagged::Tagged;

// The refusals in their order. Nothing is written before the steps have come to their end.
// Stays: it begins as the marker does; notes, idle steps, the room and what is written differ.
fn renewed(
    circuit: &[u8],
    sheet: &[u8],
    derivation: &[u8],
    output: &mut [u8],
) -> Result<usize, Refusal>
    ensures { Renews circuit.now sheet.now derivation.now output.old (answer_of result) output.new }
{
    let tagged = Tagged::read(circuit, sheet)?;
    let derivation = DerivationFile::read(derivation)?;
    let file = tagged.file;
    let mut idle = [false; STEPS_MOST as usize];
    let mut standing = start_with(tagged.sheet, file.sizes.p, file.sizes.i);
    walk_file(
        &file,
        derivation.bytes,
        &mut idle,
        IdleSteps::LetPass,
        &mut standing,
    )?;
    let needed = derivation.bytes.len();
    if output.len() < needed {
        return Err(Reason::OutputRoom.at(0));
    }
    let count = copy_steps(derivation, &idle, output);
    Ok(derivation_size(count))
}

// The renewal call: refusals 1 to 10, 26, 27, 11 to 13, 15 to 17 and 25, or the derivation written without its idle steps, and its length.
// Stays: the parameters of the C interface, here and in `renewed`.
pub fn renew(circuit: &[u8], sheet: &[u8], derivation: &[u8], output: &mut [u8]) -> RenewalAnswer
    ensures answer { paper_of result
        ≡ renewal_call circuit.now sheet.now derivation.now (length output.old) }
    ensures written { output.new
        ≡ renewal_output circuit.now sheet.now derivation.now output.old }
    ensures renewed { RenewedCall circuit.now sheet.now derivation.now output.old (paper_of result)
        output.new }
{
    RenewalAnswer::from(renewed(circuit, sheet, derivation, output))
}
