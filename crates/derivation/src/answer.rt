// What the derivation call answers.

use circuit::refusal::Refusal;
use std::fmt;
use tags::answer::Shown;

// "fixed" if every output is marked, else "open"
#[derive(Clone, Copy, Debug, PartialEq, Eq)]
pub enum Verdict {
    Fixed,
    Open,
}

impl fmt::Display for Verdict {
    fn fmt<W: fmt::Write>(&self, f: &mut fmt::Formatter<W>) -> fmt::Result {
        f.write_str(match self {
            Verdict::Fixed => "fixed",
            Verdict::Open => "open",
        })
    }
}

// What a derivation comes to: how many signals are marked, the verdict, and what is shown of the sheet.
#[derive(Clone, Copy, Debug, PartialEq, Eq)]
pub struct Judgement {
    pub count: u32,
    pub verdict: Verdict,
    pub shown: Shown,
}

// A refusal's number and place, or what the derivation comes to.
// Stays: an enum for the call, whose cases carry number and place or the result, is a form of docs/DECISIONS.md.
#[derive(Clone, Copy, Debug, PartialEq, Eq)]
pub enum DerivationAnswer {
    Refused { number: u32, place: usize },
    Accepted(Judgement),
}

impl From<Result<Judgement, Refusal>> for DerivationAnswer {
    ghost use Rattle.std.specs.Prelude.{◌≡◌};
    ghost use Rattle.circuit.specs.Answer.{answer_by};
    ghost use Rattle.derivation.specs.Answer.{judgement_in, paper_of};

    ghost from_gives = { λ judged answer. paper_of answer ≡ answer_by judgement_in judged };

    fn from(judged: Result<Judgement, Refusal>) -> DerivationAnswer {
        match judged {
            Ok(judgement) => DerivationAnswer::Accepted(judgement),
            Err(refusal) => DerivationAnswer::Refused {
                number: refusal.number(),
                place: refusal.place,
            },
        }
    }
}
