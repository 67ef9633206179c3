// A circuit's file that isn't refused, with the numbers of its header, and the table of where its constraints stand.

ghost use Rattle.std.specs.Prelude.{◌≡◌, drop, IfOk};
ghost use Rattle.circuit.specs.Reader.{header_size};
ghost use Rattle.circuit.specs.Answer.{given, answer_by};
ghost use Rattle.circuit.specs.Call.{circuit_call};
ghost use Rattle.circuit.specs.Offsets.{Offsets, part_of};

use crate::offsets::{offsets, part_of};
use crate::reader::{HEADER_SIZE, Sizes, check_body, read_header};
use crate::refusal::Refusal;

// Bytes that meet none of refusals 1 to 10.
#[derive(Clone, Copy, Debug, PartialEq, Eq)]
pub struct CircuitFile<'a> {
    pub bytes: &'a [u8],
    pub sizes: Sizes,
    ghost read: { circuit_call bytes.now ≡ given sizes },
}

impl<'a> CircuitFile<'a> {
    pub fn read(bytes: &'a [u8]) -> Result<CircuitFile<'a>, Refusal>
        ensures answer { answer_by (λ f. f.sizes) result ≡ circuit_call bytes.now }
        ensures same { IfOk result (λ f. f.bytes.now ≡ bytes.now) }
    {
        let sizes = read_header(bytes)?;
        check_body(bytes, sizes)?;
        Ok(CircuitFile { bytes, sizes })
    }

    // The constraints' bytes.
    pub fn body(self) -> &'a [u8]
        ensures { result.now ≡ drop header_size self.entry.bytes.now }
    {
        &self.bytes[HEADER_SIZE..]
    }
}

// A circuit with the table of offsets that its constraints are found by.
// Stays: an array of which entries 1 to m count, since there is no heap; m stands in the file's sizes.
#[derive(Clone, Copy, Debug, PartialEq, Eq)]
pub struct Constraints<'a> {
    pub file: CircuitFile<'a>,
    pub offsets: [u32; 513],
    ghost placed: { Offsets file.bytes.now file.sizes.m offsets },
}

impl<'a> Constraints<'a> {
    pub fn new(file: CircuitFile<'a>) -> Constraints<'a>
        ensures { result.file ≡ file.entry }
    {
        Constraints {
            file,
            offsets: offsets(file.bytes, file.sizes.m),
        }
    }

    // The part of the circuit bytes that starts at constraint k: all of them for a k of 0 or above m.
    pub fn part(&self, k: u32) -> &'a [u8]
        ensures { result.now ≡ part_of self.now.file.bytes.now self.now.offsets k }
    {
        part_of(self.file.bytes, &self.offsets, k)
    }
}
