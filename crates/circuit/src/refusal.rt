// Refusals: why a call refuses what it is lent, and at which place.

ghost use Rattle.std.specs.Prelude.{◌≡◌};
ghost use Rattle.circuit.specs.Answer.{number_of};
ghost use Rattle.circuit.specs.declared.refusal.Refusal.{Refusal};

// The reasons of all calls, in the order of their numbers.
#[derive(Clone, Copy, Debug, PartialEq, Eq)]
pub enum Reason {
    CircuitLength = 1,
    CircuitMark,
    CircuitVersion,
    NotPrime,
    SizesOut,
    EndsEarly,
    TermCount,
    SignalNumber,
    Coefficient,
    BytesLeft,
    DerivationMark,
    DerivationVersion,
    DerivationLength,
    MarksRoom,
    StepKind,
    StepField,
    RuleUnmet,
    PairMark,
    PairVersion,
    PairFrame,
    PairValue,
    Unsatisfied,
    InputsDiffer,
    OutputAgrees,
    OutputRoom,
    SheetFrame,
    SheetEntry,
    TagBroken,
    IdleStep,
    Candidates,
    RunBuffers,
    RecordsLength,
    RecordValue,
    WatchArguments,
}

impl Reason {
    // Stays: the cast of the discriminant is the conversion; a From would say it again.
    pub fn number(self) -> u32
        ensures { result ≡ number_of self }
    {
        self as u32
    }

    // The refusal for this reason at a place.
    pub fn at(self, place: usize) -> Refusal
        ensures { result ≡ record { reason = self; place = place } }
    {
        Refusal {
            reason: self,
            place,
        }
    }
}

// A reason and a place: an offset, a step's number, ..
// Stays: place 0 where the reason names none, as the refusals of the calls are (docs/RULES.md, 6.2).
#[derive(Clone, Copy, Debug, PartialEq, Eq)]
pub struct Refusal {
    pub reason: Reason,
    pub place: usize,
}

impl Refusal {
    pub fn number(self) -> u32
        ensures { result ≡ number_of self.reason }
    {
        self.reason.number()
    }
}
