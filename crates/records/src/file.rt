// A file of recorded runs: its records by number, counted from 1, and the first that isn't a run.

ghost use Rattle.std.specs.Prelude.{◌≡◌, ◌≤◌};
ghost use Rattle.circuit.specs.Runs.{first_from, found};
ghost use Rattle.records.specs.Recorded.{record_size, from_record, records_in};
ghost use Rattle.records.specs.Call.{fits};

use circuit::file::CircuitFile;
use circuit::runs::{VALUE_SIZE, first_large};

// Records of runs of a circuit.
#[derive(Clone, Copy, Debug, PartialEq, Eq)]
pub(crate) struct Records<'a> {
    pub(crate) file: CircuitFile<'a>,
    pub(crate) bytes: &'a [u8],
}

impl<'a> Records<'a> {
    // The bytes of a record.
    pub(crate) fn size(self) -> usize
        ensures is { result ≡ record_size self.entry.file.sizes.n }
        ensures least { 4 ≤ result }
        ensures most { result ≤ 1024 }
    {
        VALUE_SIZE * self.file.sizes.n as usize
    }

    // How many whole records there are.
    pub(crate) fn count(self) -> usize
        ensures { result ≡ records_in self.entry.file.sizes.n self.entry.bytes.now }
    {
        self.bytes.len() / self.size()
    }

    // The bytes from a record on.
    pub(crate) fn from(self, k: usize) -> &'a [u8]
        requires { (1 ≤ k) × (k ≤ records_in self.file.sizes.n self.bytes.now) }
        ensures { result.now ≡ from_record self.entry.file.sizes.n self.entry.bytes.now k }
    {
        &self.bytes[self.size() * (k - 1)..]
    }

    // The first record with a value that isn't below p.
    pub(crate) fn first_unfit(self) -> Option<usize>
        ensures { let sizes = self.entry.file.sizes in
            result ≡ found (first_from (fits sizes.p sizes.n self.entry.bytes.now) 1
            (records_in sizes.n self.entry.bytes.now)) }
    {
        let sizes = self.file.sizes;
        for k in 1..=self.count() {
            if first_large(self.from(k), sizes.p, sizes.n).is_some() {
                return Some(k);
            }
        }
        None
    }
}
