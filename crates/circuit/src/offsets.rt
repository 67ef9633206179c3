// Where the constraints stand: a table of offsets, made once per call, so that no step walks the file.

ghost use Rattle.std.specs.Prelude.{◌≡◌, ◌+◌, ◌≤◌, ◌<◌, min};
ghost use Rattle.circuit.specs.Reader.{constraints_most, form_most, offset_after};
ghost use Rattle.circuit.specs.Offsets.{Offsets, part_of};

use crate::bytes::byte_at;
use crate::form::form_size;
use crate::reader::{CONSTRAINTS_MOST, HEADER_SIZE};

// The offset after the form at an offset.
#[tactic(auto, unfolding(crate::specs::Reader::offset_after))]
fn after_form_at(circuit: &[u8], at: usize) -> usize
    requires { at < 4294967296 }
    ensures { (result ≡ offset_after circuit.now at) × (result ≤ at + form_most) }
{
    at + form_size(byte_at(circuit, at))
}

// Three count bytes lead from one constraint to the next; at most 512 of them are in the table, and its other entries are 0.
pub fn offsets(circuit: &[u8], m: u32) -> [u32; 513]
    ensures { Offsets circuit.now (min m constraints_most) result }
{
    let mut table = [0u32; 513];
    let mut at: usize = HEADER_SIZE;
    for entry in &mut table[1..=m.min(CONSTRAINTS_MOST) as usize] {
        *entry = at as u32;
        let b = after_form_at(circuit, at);
        let c = after_form_at(circuit, b);
        at = after_form_at(circuit, c);
    }
    table
}

// The part of the circuit bytes that starts at constraint k: all of them for a k of 0 or above m, since its entry is 0.
#[tactic(auto, unfolding(crate::specs::Offsets::part_of))]
pub fn part_of<'a>(circuit: &'a [u8], table: &[u32], k: u32) -> &'a [u8]
    ensures { result.now ≡ part_of circuit.now table.now k }
{
    let at = table.get(k as usize).copied().unwrap_or(0);
    circuit.get(at as usize..).unwrap_or(&[])
}
