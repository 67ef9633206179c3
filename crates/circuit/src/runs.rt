// Runs (witnesses) in bytes, 32 bits a value, and the first value, constraint or signal that breaks what is asked of them, counted from 1.

ghost use Rattle.std.specs.Prelude.{◌≡◌, ◌<◌, min};
ghost use Rattle.circuit.specs.Circuit.{value_of};
ghost use Rattle.circuit.specs.Reader.{signals_most, constraint_of};
ghost use Rattle.circuit.specs.Run.{values_in};
ghost use Rattle.circuit.specs.Runs.{value_at, run_in, filled, first_from, found, below, satisfied_by, agree};

use crate::bytes::u32_at;
use crate::reader::{SIGNALS_MOST, after_constraint};
use crate::run::{satisfied, value_of};

pub const VALUE_SIZE: usize = 4;

// The value with a number, counted from 1; that of 0 is the first too, so that a test of a search asks nothing.
#[tactic(auto, unfolding(crate::specs::Runs::value_at))]
fn value_at(values: &[u8], number: u32) -> u32
    ensures { result ≡ value_at values.now number }
{
    u32_at(values, VALUE_SIZE * (number as usize).saturating_sub(1))
}

// Puts the first n values into an array, each at the place of its signal, and leaves the others.
pub fn fill_run(run: &mut [u32; 257], values: &[u8], n: u32)
    ensures { values_in run.new ≡ filled values.now (min n signals_most) (values_in run.old) }
{
    for s in 1..=n.min(SIGNALS_MOST) {
        run[s as usize] = value_at(values, s);
    }
}

// The constant one and the first n values: a run, with the value of signal s at place s.
pub fn copy_run(values: &[u8], n: u32) -> [u32; 257]
    ensures { values_in result ≡ value_of (run_in values.now (min n signals_most)) }
{
    let mut run = [0u32; 257];
    run[0] = 1;
    fill_run(&mut run, values, n);
    run
}

// The first of `count` values that isn't below p.
pub fn first_large(values: &[u8], p: u32, count: u32) -> Option<u32>
    ensures { result ≡ found (first_from (below p values.now) 1 count) }
{
    (1..=count).find(|j| p <= value_at(values, *j))
}

// The first of m constraints that the values don't satisfy, each read from the part after the one before it.
// Stays: a loop and no `find`: a rest of the bytes goes along, which a closure would have to change.
pub fn first_unsatisfied(body: &[u8], values: &[u32], p: u32, m: u32) -> Option<u32>
    ensures { result ≡ found (first_from (satisfied_by p (constraint_of body.now) (values_in values.now)) 1 m) }
{
    let mut rest = body;
    for k in 1..=m {
        if !satisfied(rest, values, p) {
            return Some(k);
        }
        rest = after_constraint(rest);
    }
    None
}

// The first signal up to `count` at which two runs differ.
pub fn first_difference(values: &[u32], other: &[u32], count: u32) -> Option<u32>
    ensures { result ≡ found (first_from (agree (values_in values.now) (values_in other.now)) 1 count) }
{
    (1..=count).find(|s| value_of(values, *s) != value_of(other, *s))
}

// The same of the values in bytes and a run.
pub fn first_unlike(values: &[u8], run: &[u32], count: u32) -> Option<u32>
    ensures { result ≡ found (first_from (agree (value_at values.now) (values_in run.now)) 1 count) }
{
    (1..=count).find(|s| value_at(values, *s) != value_of(run, *s))
}
