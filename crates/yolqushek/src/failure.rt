// What stops the program, and how it is told on standard error.

use crate::USAGE;
use std::alloc::{AllocError, AllocFailed};
use std::io;
use std::io::Write;
use thiserror::Error;

// What is wrong with a file or a stream. It can't be compared, nor can a failure, since io::Error can't.
#[derive(Clone, Copy, Debug, Error)]
pub enum Fault {
    #[error("is one of the files to be read")]
    IsRead,
    #[error("is a symbolic link")]
    IsLink,
    #[error("is not a regular file")]
    IsIrregular,
    #[error("Name is not UTF-8")]
    NotText,
    #[error(transparent)]
    System(#[from] io::Error),
}

impl Fault {
    // The fault of the file or stream with a name.
    pub(crate) fn of(self, name: &[u8]) -> Failure<'_> {
        Failure::File { name, fault: self }
    }
}

// Arguments that are no command with its operands, a fault with the name of the file or stream that has it, or no memory.
#[derive(Clone, Copy, Debug)]
pub enum Failure<'a> {
    Misuse,
    File { name: &'a [u8], fault: Fault },
    Memory,
}

impl From<AllocError> for Failure<'_> {
    fn from(_: AllocError) -> Self {
        Failure::Memory
    }
}

impl<T: Drop> From<AllocFailed<T>> for Failure<'_> {
    fn from(_: AllocFailed<T>) -> Self {
        Failure::Memory
    }
}

impl Failure<'_> {
    // Says what failed. Where that fails, there is nowhere to say so.
    pub(crate) fn tell(self, rt: HostRuntime) {
        let _ = match self {
            Failure::Misuse => rt.stderr().write_all(USAGE.as_bytes()),
            Failure::File { name, fault } => tell_fault(rt, name, fault),
            Failure::Memory => rt.stderr().write_all(b"yolqushek: out of memory\n"),
        };
    }
}

// A line in one piece: a name, told whole, and what is wrong with it.
fn tell_fault(rt: HostRuntime, name: &[u8], fault: Fault) -> io::Result<()> {
    let told = format!(in rt.alloc(); "{fault}")?;
    let words = without_number(told.as_str());
    let mut line = name.to_vec(rt.alloc())?;
    writeln!(line, ": {words}")?;
    rt.stderr().write_all(&line)
}

// The system's words for what failed, without the number that std puts after them.
fn without_number(told: &str) -> &str {
    told.rsplit_once(" (os error ")
        .map_or(told, |(words, _)| words)
}
