// Runs the public calls over stored vectors, made by the second implementation with the answers that it computes, and prints for each file how many of
// each kind agree and the first record that doesn't. Buffers are filled before each call; what lies beyond the bytes that a call writes is compared too.

#![tactic(auto)]

mod call;
mod record;
mod tally;

use std::fs::File;
use std::io;
use std::io::Read;
use tally::Tally;

// No file has more bytes, and of one that has no more is read.
const FILE_MOST: u64 = 524288;

fn main(rt: HostRuntime) {
    for path in [
        "vectors-1.bin",
        "vectors-2.bin",
        "vectors-3.bin",
        "vectors-4.bin",
    ] {
        if let Err(error) = report(rt, path) {
            let _ = eprintln!(rt; "{path}: {error}");
        }
    }
}

// Makes the calls of a file and prints what was found. A read that fails ends the file, and a failed write is passed over.
fn report(rt: HostRuntime, path: &str) -> io::Result<()> {
    let mut file = Vec::new(rt.alloc());
    let reader = File::open(&rt, path)?;
    let _ = reader.take(FILE_MOST).read_to_end(&mut file);
    let tally = Tally::of(rt.alloc(), &file)?;
    let _ = print!(rt; "{path}\n{tally}");
    Ok(())
}
