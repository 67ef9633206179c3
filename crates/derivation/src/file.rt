// A derivation's file whose frame is right.

ghost use Rattle.std.specs.Prelude.{◌≡◌, IfOk};
ghost use Rattle.circuit.specs.Bytes.{u16_at};
ghost use Rattle.circuit.specs.Answer.{Answer, answer_of, and_then};
ghost use Rattle.laws.specs.Standing as laws;
ghost use Rattle.derivation.specs.Call.{framed};
ghost use Rattle.derivation.specs.Exact.{Framed};

use crate::walk::check_frame;
use circuit::bytes::u16_at;
use circuit::refusal::Refusal;

// The number of steps that the header of a derivation tells.
pub(crate) fn steps_told(derivation: &[u8]) -> u32
    ensures { result ≡ u16_at derivation.now 5 }
{
    u16_at(derivation, 5)
}

// Bytes that meet none of refusals 11 to 13.
#[derive(Clone, Copy, Debug, PartialEq, Eq)]
pub struct DerivationFile<'a> {
    pub bytes: &'a [u8],
    ghost framed: { Framed bytes.now },
}

impl<'a> DerivationFile<'a> {
    pub fn read(bytes: &'a [u8]) -> Result<DerivationFile<'a>, Refusal>
        ensures answer { (x : Answer laws.Standing) → and_then (answer_of result) (λ file. x) ≡ framed bytes.now x }
        ensures same { IfOk result (λ file. file.bytes.now ≡ bytes.now) }
    {
        check_frame(bytes)?;
        Ok(DerivationFile { bytes })
    }

    // How many steps it has.
    pub fn count(self) -> u32
        ensures { result ≡ u16_at self.entry.bytes.now 5 }
    {
        steps_told(self.bytes)
    }
}
