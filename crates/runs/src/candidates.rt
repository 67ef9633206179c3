// Candidates: n values below p, counted up with signal n as the lowest digit.

ghost use Rattle.std.specs.Prelude.{◌≡◌, ◌≤◌, ◌<◌, length, MatchOption};
ghost use Rattle.circuit.specs.Run.{values_in};
ghost use Rattle.circuit.specs.Runs.{found, first_from};
ghost use Rattle.runs.specs.Call.{few as Call·few, fits};
ghost use Rattle.runs.specs.Inner.{Candidate, Rose, Ended};

use crate::call::CANDIDATES_MOST;

// Refusal 30 is not met: p to the power n is at most 65,536.
#[tactic(auto, unfolding(crate::specs::Call::few))]
pub(crate) fn few(p: u32, n: u32) -> bool
    ensures { result ≡ Call·few p n }
{
    p.checked_pow(n)
        .is_some_and(|candidates| candidates <= CANDIDATES_MOST)
}

// The first signal whose value in a given run isn't below p.
pub(crate) fn first_unfit(run: &[u32], p: u32) -> Option<u32>
    requires { length run.now ≤ 256 }
    ensures { result ≡ found (first_from (fits p run.now) 1 (length run.now)) }
{
    let index = run.iter().position(|value| p <= *value)?;
    Some(index as u32 + 1)
}

// Goes to the next candidate that differs among the first h signals, and gives the signal that has risen, if there is one.
pub(crate) fn advance(values: &mut [u32], p: u32, n: u32, h: u32) -> Option<u32>
    requires { (n < length values.old) × Candidate p n (values_in values.old) }
    ensures rose { MatchOption result
        (Ended p n h (values_in values.old) (values_in values.new))
        (Rose p n h (values_in values.old) (values_in values.new)) }
    ensures sized { length values.new ≡ length values.old }
{
    for s in (1..=n).rev() {
        let value = values[s as usize] + 1;
        if s <= h && value < p {
            values[s as usize] = value;
            return Some(s);
        }
        values[s as usize] = 0;
    }
    None
}
