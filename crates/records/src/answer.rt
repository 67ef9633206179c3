// What the watching call answers.

use circuit::refusal::Refusal;

// Two records that make a pair, counted from 1, and the lowest output at which they differ.
#[derive(Clone, Copy, Debug, PartialEq, Eq)]
pub struct Watched {
    pub q: u32,
    pub earlier: usize,
    pub later: usize,
}

// A refusal's number and place, or the pair that was written, or that no two records make one.
// Stays: the form that docs/DECISIONS.md names, one enum for each call.
#[derive(Clone, Copy, Debug, PartialEq, Eq)]
pub enum WatchAnswer {
    Refused { number: u32, place: usize },
    Pair(Watched),
    NoPair,
}

impl From<Result<Option<Watched>, Refusal>> for WatchAnswer {
    ghost use Rattle.std.specs.Prelude.{◌≡◌};
    ghost use Rattle.circuit.specs.Answer.{answer_of};
    ghost use Rattle.records.specs.Answer.{paper_of};

    ghost from_gives = { λ found answer. paper_of answer ≡ answer_of found };

    fn from(found: Result<Option<Watched>, Refusal>) -> WatchAnswer {
        match found {
            Ok(Some(pair)) => WatchAnswer::Pair(pair),
            Ok(None) => WatchAnswer::NoPair,
            Err(refusal) => WatchAnswer::Refused {
                number: refusal.number(),
                place: refusal.place,
            },
        }
    }
}
