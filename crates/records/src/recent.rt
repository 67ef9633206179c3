// The records that satisfy the circuit and may be within a window, by a hash of their inputs.

ghost use Rattle.std.specs.Prelude.{◌≡◌, ◌≤◌, ◌<◌, ◌%◌, get_or};
ghost use Rattle.circuit.specs.Run.{values_in};
ghost use Rattle.circuit.specs.Call.{circuit_of};
ghost use Rattle.records.specs.Recorded.{Recorded, recorded, records_in, pair_at};
ghost use Rattle.records.specs.Inner.{hash_of, bucket_of, with_record, Kept, Compared, Here};

use crate::answer::Watched;
use crate::file::Records;
use circuit::run::value_of;
use circuit::runs::first_unlike;

// As many places as the widest window has, and as many buckets.
const PLACES: usize = 256;

// What a value is mixed into a hash with: 2^64 by the golden ratio, as in Fibonacci hashing.
const MULTIPLIER: u64 = 0x9e37_79b9_7f4a_7c15;

// A hash of the inputs of a run.
pub(crate) fn hash_of(run: &[u32], inputs: u32) -> u64
    ensures { result ≡ hash_of (values_in run.now) inputs }
{
    let mut hash: u64 = 0;
    for s in 1..=inputs {
        hash = hash
            .wrapping_add(u64::from(value_of(run, s)))
            .wrapping_mul(MULTIPLIER);
    }
    hash
}

// The bucket of a hash: its high eight bits.
fn bucket_of(hash: u64) -> usize
    ensures { (result ≡ bucket_of hash) × (result < 256) }
{
    (hash >> 56) as usize
}

// For each bucket the latest record in it, 0 where there is none; for each of the latest 256 records the one before it in its bucket, and its hash.
#[derive(Clone, Copy, Debug, PartialEq, Eq)]
pub(crate) struct Recent {
    heads: [usize; PLACES],
    links: [usize; PLACES],
    hashes: [u64; PLACES],
}

impl Recent {
    // Before the first record.
    pub(crate) fn new() -> Recent
        ensures { (R : Recorded) → Kept R 1 result }
    {
        Recent {
            heads: [0; PLACES],
            links: [0; PLACES],
            hashes: [0; PLACES],
        }
    }

    // Takes in record k, which satisfies the circuit.
    pub(crate) fn keep(&mut self, k: usize, hash: u64)
        ensures { self.new ≡ with_record self.old k hash }
    {
        let bucket = bucket_of(hash);
        self.links[k % PLACES] = self.heads[bucket];
        self.hashes[k % PLACES] = hash;
        self.heads[bucket] = k;
    }

    // The first signal at which an earlier record differs from a run; 0, which is no signal, where their hashes tell that an input does.
    fn first_unlike(&self, records: Records, at: usize, run: &[u32], hash: u64) -> Option<u32>
        requires here { (1 ≤ at) × (at ≤ records_in records.file.sizes.n records.bytes.now) }
        requires hashed { get_or self.now.hashes (at % 256) 0
            ≡ hash_of ((recorded (circuit_of records.file.bytes.now) records.bytes.now).value at) records.file.sizes.i }
        requires hash { hash ≡ hash_of (values_in run.now) records.file.sizes.i }
        ensures { Compared (recorded (circuit_of records.entry.file.bytes.now) records.entry.bytes.now) at
            (values_in run.now) result }
    {
        if self.hashes[at % PLACES] != hash {
            return Some(0);
        }
        let sizes = records.file.sizes;
        first_unlike(records.from(at), run, sizes.i + sizes.o)
    }

    // The pair of record k, whose run is lent, with the nearest record that it makes one with. The nearest that shares its inputs decides that.
    pub(crate) fn pair_with(
        &self,
        records: Records,
        k: usize,
        run: &[u32],
        hash: u64,
        window: usize,
    ) -> Option<Watched>
        requires hash { hash ≡ hash_of (values_in run.now) records.file.sizes.i }
        requires here { Here (recorded (circuit_of records.file.bytes.now) records.bytes.now) window k
            self.now run.now }
        ensures { result
            ≡ pair_at (recorded (circuit_of records.entry.file.bytes.now) records.entry.bytes.now) window k }
    {
        let inputs = records.file.sizes.i;
        let mut at = self.heads[bucket_of(hash)];
        while at != 0 && k - at < window {
            match self.first_unlike(records, at, run, hash) {
                None => return None,
                Some(q) if inputs < q => {
                    return Some(Watched {
                        q,
                        earlier: at,
                        later: k,
                    });
                }
                Some(_) => at = self.links[at % PLACES],
            }
        }
        None
    }
}
