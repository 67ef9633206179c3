// The search for a run: candidates in rising order, those passed over as a whole whose first signals already break a constraint.
// Stays: n <= 10 and p <= 65,536 are ghost fields of `Levels`; before it, `seek` asks them of the file and `by_level` n of the constraints: one more struct
// would serve just one.
// A struct for the values, a candidate, would hold p and n too and give its fact anew at each store of `advance`; they are lent as a slice.

ghost use Rattle.std.specs.Prelude.{◌≡◌, ◌≤◌, ◌<◌, length};
ghost use Rattle.circuit.specs.Run.{values_in};
ghost use Rattle.circuit.specs.Call.{circuit_of};
ghost use Rattle.runs.specs.Inner.{level_at, Ordered, Starts, Candidate, Small, Checked, Sought};

use crate::candidates::advance;
use crate::evaluate::satisfied;
use crate::levels::{Leveled, SIGNAL_NUMBERS, starts};
use circuit::file::Constraints;

// A circuit of at most 10 signals over a prime of at most 65,536, with its constraints by rising level.
#[derive(Clone, Copy, Debug, PartialEq, Eq)]
pub(crate) struct Levels<'a> {
    constraints: &'a Constraints<'a>,
    order: &'a [Leveled],
    starts: [usize; SIGNAL_NUMBERS],
    ghost few: { constraints.now.file.sizes.n ≤ 10 },
    ghost small: { constraints.now.file.sizes.p ≤ 65536 },
    ghost ordered: { let file = constraints.now.file in
        Ordered (level_at file.bytes.now constraints.now.offsets file.sizes.n) file.sizes.m order.now },
    ghost begun: { Starts order.now starts },
}

impl<'a> Levels<'a> {
    pub(crate) fn new(constraints: &'a Constraints<'a>, order: &'a [Leveled]) -> Levels<'a>
        requires few { constraints.now.file.sizes.n ≤ 10 }
        requires small { constraints.now.file.sizes.p ≤ 65536 }
        requires ordered { let file = constraints.now.file in
            Ordered (level_at file.bytes.now constraints.now.offsets file.sizes.n) file.sizes.m order.now }
        ensures { result.constraints.now ≡ constraints.now }
    {
        Levels {
            constraints,
            order,
            starts: starts(order),
        }
    }

    // The lowest level, from a given one on, at which the values break a constraint.
    fn broken(&self, values: &[u32], from: u32) -> Option<u32>
        requires { let sizes = self.now.constraints.now.file.sizes in
            (from ≤ sizes.n) × Small (values_in values.now) }
        ensures { let file = self.now.constraints.now.file in
            Checked (circuit_of file.bytes.now)
            (level_at file.bytes.now self.now.constraints.now.offsets file.sizes.n)
            (values_in values.now) from result }
    {
        let p = self.constraints.file.sizes.p;
        let broken = self.order[self.starts[from as usize]..]
            .iter()
            .find(|leveled| !satisfied(
                self.constraints.part(u32::from(leveled.constraint)),
                values,
                p,
            ))?;
        Some(u32::from(broken.level))
    }

    // Goes to the first candidate that satisfies the circuit, from the one that the values are on. Whether there is one.
    // Stays: the search goes on in the caller's values; an option of them would hand back, by a copy, what the caller lent.
    pub(crate) fn search(&self, values: &mut [u32]) -> bool
        requires { let sizes = self.now.constraints.now.file.sizes in
            (sizes.n < length values.old) × Candidate sizes.p sizes.n (values_in values.old) }
        ensures sought { Sought (circuit_of self.now.constraints.now.file.bytes.now)
            (values_in values.old) (values_in values.new) result }
        ensures sized { length values.new ≡ length values.old }
    {
        let sizes = self.constraints.file.sizes;
        let mut broken = self.broken(values, 0);
        // Stays: nothing is counted, each turn asks which level is broken next.
        while let Some(level) = broken {
            let Some(risen) = advance(values, sizes.p, sizes.n, level) else {
                return false;
            };
            broken = self.broken(values, risen);
        }
        true
    }
}
