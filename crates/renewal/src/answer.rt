// What the renewal call answers.

use circuit::refusal::Refusal;

// A refusal's number and place, or the bytes of the derivation written.
// Stays: an enum for the call, whose cases carry number and place or the result, is a form of docs/DECISIONS.md.
#[derive(Clone, Copy, Debug, PartialEq, Eq)]
pub enum RenewalAnswer {
    Refused { number: u32, place: usize },
    Renewed { bytes: usize },
}

impl From<Result<usize, Refusal>> for RenewalAnswer {
    ghost use Rattle.std.specs.Prelude.{◌≡◌};
    ghost use Rattle.circuit.specs.Answer.{answer_of};
    ghost use Rattle.renewal.specs.Answer.{paper_of};

    ghost from_gives = { λ renewed answer. paper_of answer ≡ answer_of renewed };

    fn from(renewed: Result<usize, Refusal>) -> RenewalAnswer {
        match renewed {
            Ok(bytes) => RenewalAnswer::Renewed { bytes },
            Err(refusal) => RenewalAnswer::Refused {
                number: refusal.number(),
                place: refusal.place,
            },
        }
    }
}
