// What the solver call answers.

use circuit::refusal::Refusal;
use derivation::answer::Judgement;

// What the derivation written comes to, and its bytes.
#[derive(Clone, Copy, Debug, PartialEq, Eq)]
pub struct Solved {
    pub judgement: Judgement,
    pub bytes: usize,
}

// A refusal's number and place, or what was solved.
// Stays: an enum for the call, whose cases carry number and place or the result, is a form of docs/DECISIONS.md.
#[derive(Clone, Copy, Debug, PartialEq, Eq)]
pub enum SolverAnswer {
    Refused { number: u32, place: usize },
    Solved(Solved),
}

impl From<Result<Solved, Refusal>> for SolverAnswer {
    ghost use Rattle.std.specs.Prelude.{◌≡◌};
    ghost use Rattle.circuit.specs.Answer.{answer_by};
    ghost use Rattle.solver.specs.Answer.{solved_in, paper_of};

    ghost from_gives = { λ solved answer. paper_of answer ≡ answer_by solved_in solved };

    fn from(solved: Result<Solved, Refusal>) -> SolverAnswer {
        match solved {
            Ok(solved) => SolverAnswer::Solved(solved),
            Err(refusal) => SolverAnswer::Refused {
                number: refusal.number(),
                place: refusal.place,
            },
        }
    }
}
