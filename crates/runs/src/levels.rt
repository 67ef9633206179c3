// Constraints by their level, the highest signal that they name: once the signals up to it have their values, a constraint holds or is broken.

ghost use Rattle.std.specs.Prelude.{◌≡◌, ◌≤◌, take, length};
ghost use Rattle.std.specs.List.Sorted.{IsNonDecreasingBy};
ghost use Rattle.runs.specs.Inner.{last_signal, level_in, level_at, rank, Ordered, IsStart, Starts};

use crate::call::VALUES_MOST;
use circuit::file::Constraints;
use circuit::form::{Forms, term_at, term_count};
use std::array;

// The numbers of the constant one, 0, and of at most 10 signals, which are their levels too.
pub(crate) const SIGNAL_NUMBERS: usize = VALUES_MOST + 1;

// A constraint with its level, in few bytes: for a small circuit clearing the room for 512 of them takes longer than the work.
#[derive(Clone, Copy, Debug, PartialEq, Eq)]
pub(crate) struct Leveled {
    pub(crate) constraint: u16,
    pub(crate) level: u16,
}

impl Leveled {
    // Stays: a constant for the value that an array is filled with; a derived `Default` would give the same zeros under a name that says less.
    pub(crate) const NONE: Leveled = Leveled {
        level: 0,
        constraint: 0,
    };

    // What the constraints are sorted by, in one number, so that it takes one comparison.
    fn rank(&self) -> u32
        ensures { result ≡ rank self.now }
    {
        65536 * u32::from(self.level) + u32::from(u16::MAX - self.constraint)
    }
}

// The signal of a form's last term, 0 where it has none. The terms of a form that was read rise, so it is the highest.
// Stays: 0 is the level of such a form, as of one with just the constant; an option would be opened to 0 by its one caller.
#[tactic(auto, unfolding(crate::specs::Inner::last_signal))]
fn last_signal(part: &[u8]) -> u32
    ensures { result ≡ last_signal part.now }
{
    let count = term_count(part);
    if count == 0 {
        0
    } else {
        term_at(part, count - 1).signal
    }
}

// The level of the constraint that a part starts with, n at most whatever the bytes are.
#[tactic(auto, unfolding(crate::specs::Inner::level_in))]
fn level_of(part: &[u8], n: u32) -> u32
    ensures { result ≡ level_in n part.now }
{
    let Forms { a, b, c } = Forms::of(part);
    last_signal(a)
        .max(last_signal(b))
        .max(last_signal(c))
        .min(n)
}

// Writes the constraints by rising level, and on one level from the last to the first. No two have the same rank, so the unstable sort has one result.
pub(crate) fn by_level(constraints: &Constraints, order: &mut [Leveled])
    requires { (constraints.now.file.sizes.n ≤ 10) × (length order.old ≡ constraints.now.file.sizes.m) }
    ensures { let file = constraints.now.file in
        Ordered (level_at file.bytes.now constraints.now.offsets file.sizes.n) file.sizes.m order.new }
{
    let sizes = constraints.file.sizes;
    for (i, leveled) in order.iter_mut().enumerate() {
        let k = sizes.m - i as u32;
        let level = level_of(constraints.part(k), sizes.n);
        *leveled = Leveled {
            level: level as u16,
            constraint: k as u16,
        };
    }
    order.sort_unstable_by_key(|leveled| leveled.rank());
}

// Where the constraints of a level begin.
fn start(order: &[Leveled], level: usize) -> usize
    requires { IsNonDecreasingBy (λ x. x.level) order.now }
    ensures { IsStart order.now level result }
{
    order.partition_point(|leveled| (leveled.level as usize) < level)
}

// Where the constraints of each level begin.
pub(crate) fn starts(order: &[Leveled]) -> [usize; SIGNAL_NUMBERS]
    requires { IsNonDecreasingBy (λ x. x.level) order.now }
    ensures { Starts order.now result }
{
    array::from_fn(|level| start(order, level))
}
