// Steps copied from one derivation to another.

ghost use Rattle.std.specs.Prelude.{◌≡◌, ◌+◌, ◌*◌, ◌≤◌, false, not, length, take, drop, get_or};
ghost use Rattle.circuit.specs.Bytes.{u16_at};
ghost use Rattle.derivation.specs.Steps.{head_size, step_size, step_start, steps_of};
ghost use Rattle.derivation.specs.Encoded.{stored};
ghost use Rattle.derivation.specs.Inner.{unflagged};
ghost use Rattle.renewal.specs.Inner.{Bytes, Copied};

use derivation::file::DerivationFile;
use derivation::writer::{STEP_SIZE, derivation_size, put_header};

// Step k, counted from 0, to place `index` of the output.
fn copy_step(derivation: &[u8], k: u32, output: &mut [u8], index: u32)
    requires { (head_size + step_size * k + step_size ≤ length derivation.now) × (head_size + step_size * index + step_size ≤ length output.old) }
    ensures { output.new
        ≡ stored output.old (head_size + step_size * index) (take step_size (drop (step_start k) derivation.now)) }
{
    let from = derivation_size(k);
    let to = derivation_size(index);
    output[to..to + STEP_SIZE].copy_from_slice(&derivation[from..from + STEP_SIZE]);
}

// Whether step k isn't noted as idle.
fn is_kept(idle: &[bool], k: usize) -> bool
    ensures { result ≡ not (get_or idle.now k false) }
{
    !idle.get(k).copied().unwrap_or(false)
}

// The steps that aren't noted as idle, one after the other, and the header before them. Gives how many there are.
pub(crate) fn copy_steps(derivation: DerivationFile, idle: &[bool], output: &mut [u8]) -> u32
    requires { length derivation.bytes.now ≤ length output.old }
    ensures { let d = derivation.entry.bytes.now in
        Bytes d → length (steps_of d) ≡ u16_at d 5 → Copied (unflagged idle.now d (u16_at d 5)) output.old output.new result }
{
    let mut index = 0;
    // Stays: a test in the loop; `filter` and `enumerate` would give the places too, and how many there are, the answer, would still be counted here.
    for k in 0..derivation.count() {
        if is_kept(idle, k as usize) {
            copy_step(derivation.bytes, k, output, index);
            index += 1;
        }
    }
    put_header(output, index as u16);
    index
}
