// The search for the first pair in a file of records: which record each makes one with, if any.

ghost use Rattle.std.specs.Prelude.{◌≡◌, ◌+◌, ◌≤◌, None};
ghost use Rattle.circuit.specs.Run.{values_in};
ghost use Rattle.circuit.specs.Call.{circuit_of};
ghost use Rattle.records.specs.Recorded.{recorded, records_in, pair_at, watched};
ghost use Rattle.records.specs.Inner.{Searched, IsRunFor};

use crate::answer::Watched;
use crate::file::Records;
use crate::recent::{Recent, hash_of};
use circuit::runs::{copy_run, fill_run, first_unsatisfied};

// The pair of record k with a record before it, where none of these makes one. Where k makes none either, it is kept. Its run is put into the array.
// Stays: records, number and window as parameters: a struct of them would be made for two functions. The array is lent, since clearing one takes longer than
// the values of a small record.
fn pair_of(
    records: Records,
    k: usize,
    window: usize,
    run: &mut [u32; 257],
    recent: &mut Recent,
) -> Option<Watched>
    requires there { (1 ≤ k) × (k ≤ records_in records.file.sizes.n records.bytes.now) × (window ≤ 256) }
    requires run { IsRunFor records.file.sizes.n (values_in run.old) }
    requires searched { Searched (recorded (circuit_of records.file.bytes.now) records.bytes.now) window k
        recent.old }
    ensures pair { result
        ≡ pair_at (recorded (circuit_of records.entry.file.bytes.now) records.entry.bytes.now) window k }
    ensures run { IsRunFor records.entry.file.sizes.n (values_in run.new) }
    ensures searched { result ≡ None
        → Searched (recorded (circuit_of records.entry.file.bytes.now) records.entry.bytes.now) window (k + 1)
        recent.new }
{
    let sizes = records.file.sizes;
    fill_run(run, records.from(k), sizes.n);
    if first_unsatisfied(records.file.body(), run, sizes.p, sizes.m).is_some() {
        return None;
    }
    let hash = hash_of(run, sizes.i);
    let pair = recent.pair_with(records, k, run, hash, window);
    if pair.is_none() {
        recent.keep(k, hash);
    }
    pair
}

// The pair of the first record that makes one with a record before it.
pub(crate) fn first_pair(records: Records, window: usize) -> Option<Watched>
    requires { window ≤ 256 }
    ensures { result
        ≡ watched (recorded (circuit_of records.entry.file.bytes.now) records.entry.bytes.now) window }
{
    let mut run = copy_run(&[], 0);
    let mut recent = Recent::new();
    for k in 1..=records.count() {
        let pair = pair_of(records, k, window, &mut run, &mut recent);
        if pair.is_some() {
            return pair;
        }
    }
    None
}
