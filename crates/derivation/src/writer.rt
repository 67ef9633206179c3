// The writer of derivations: steps and headers, stored in a lent buffer. Bytes past its end are left out.

ghost use Rattle.std.specs.Prelude.{◌≡◌, ◌+◌, ◌*◌};
ghost use Rattle.derivation.specs.Steps.{head_size, step_size};
ghost use Rattle.derivation.specs.Encoded.{step_bytes, header_bytes, stored};
ghost use Rattle.derivation.specs.Inner.{step_in};

use crate::step::Step;
use circuit::reader::file_start;

// The letter D of a derivation's mark.
// Stays: a byte, as it is written, though the letter stands in `walk` too: the public `has_mark` takes it as `byte_at` gives it, a number of 32 bits.
const LETTER: u8 = b'D';

// The bytes of a header, and those of a step.
pub const HEAD_SIZE: usize = 7;

pub const STEP_SIZE: usize = 7;

// The bytes of a derivation of so many steps, and so where the step after them starts.
pub fn derivation_size(steps: u32) -> usize
    ensures { result ≡ head_size + step_size * steps }
{
    HEAD_SIZE + STEP_SIZE * steps as usize
}

// Stores the bytes of a header or of a step from an offset on.
fn put(output: &mut [u8], at: usize, bytes: [u8; 7])
    ensures { output.new ≡ stored output.old at bytes }
{
    let start = at.min(output.len());
    let count = bytes.len().min(output.len() - start);
    output[start..start + count].copy_from_slice(&bytes[..count]);
}

// Step number `index`, counted from 0.
pub fn put_step(output: &mut [u8], index: u32, step: Step)
    ensures { output.new
        ≡ stored output.old (head_size + step_size * index) (step_bytes (step_in step)) }
{
    put(output, derivation_size(index), step.to_bytes());
}

// The mark, version 1 and the number of steps.
pub fn put_header(output: &mut [u8], count: u16)
    ensures { output.new ≡ stored output.old 0 (header_bytes count) }
{
    put(output, 0, file_start(LETTER, count));
}
