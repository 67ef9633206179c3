// What the calls answer.

use circuit::refusal::Refusal;

// A refusal's number and place, or that a run was written, or that there are no more.
// Stays: one enum for both calls, whose cases carry number and place or the result, a form of docs/DECISIONS.md.
#[derive(Clone, Copy, Debug, PartialEq, Eq)]
pub enum RunAnswer {
    Refused { number: u32, place: usize },
    Written,
    NoMore,
}

impl From<Result<bool, Refusal>> for RunAnswer {
    ghost use Rattle.std.specs.Prelude.{◌≡◌};
    ghost use Rattle.runs.specs.Answer.{run_answer};

    ghost from_gives = { λ found answer. answer ≡ run_answer found };

    fn from(found: Result<bool, Refusal>) -> RunAnswer {
        match found {
            Ok(true) => RunAnswer::Written,
            Ok(false) => RunAnswer::NoMore,
            Err(refusal) => RunAnswer::Refused {
                number: refusal.number(),
                place: refusal.place,
            },
        }
    }
}
