// Output, gathered: what is printed goes to a page, which is written at a line's end once it is nearly full, and when all is said. A page is as long as what a
// pipe takes in one piece, so lines of programs that write side by side stay whole.

use crate::failure::{Failure, Fault};
use std::alloc::Global;
use std::fmt::Display;
use std::io;
use std::io::Write;

// The length of a page.
const PAGE: usize = 4096;

// More than the longest line, that of 256 marks with its 922 bytes.
const LINE: usize = 1024;

// A writer behind a page.
// Stays: a type of our own, since a BufWriter writes where it is full, and so would cut lines of programs that write side by side.
#[derive(Drop)]
pub struct Pages<W> {
    to: W,
    page: Vec<u8>,
}

impl<W: Write> Pages<W> {
    pub(crate) fn new(alloc: Global, to: W) -> Pages<W> {
        Pages {
            to,
            page: Vec::new(alloc),
        }
    }
}

impl<W: Write> Write for Pages<W> {
    fn write(&mut self, bytes: &[u8]) -> io::Result<usize> {
        self.write_all(bytes)?;
        Ok(bytes.len())
    }

    // The whole of it goes to the page at once.
    fn write_all(&mut self, bytes: &[u8]) -> io::Result<()> {
        self.page.extend_from_slice(bytes)?;
        if bytes.ends_with(b"\n") && PAGE - LINE < self.page.len() {
            self.flush()?;
        }
        Ok(())
    }

    fn flush(&mut self) -> io::Result<()> {
        self.to.write_all(&self.page)?;
        self.page.clear();
        self.to.flush()
    }
}

// Prints to standard output.
pub(crate) fn print<T: Display + Drop>(rt: HostRuntime, text: T) -> Result<(), Failure<'static>> {
    let mut pages = Pages::new(rt.alloc(), rt.stdout());
    told(write!(pages, "{text}").and_then(|()| pages.flush()))
}

// What came of writing to standard output.
pub(crate) fn told<T>(written: io::Result<T>) -> Result<T, Failure<'static>> {
    written.map_err(|error| Fault::System(error).of(b"standard output"))
}
