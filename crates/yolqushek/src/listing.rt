// What the program prints: each number is a library's answer, or read from the bytes of the derivation that a library wrote.

use circuit::reader::{CircuitAnswer, Sizes, check_circuit};
use derivation::answer::Verdict;
use derivation::step::Step;
use derivation::walk::STEPS_MOST;
use records::answer::Watched;
use std::fmt;
use std::fmt::{Display, Formatter};
use tags::answer::Shown;

// A refusal's number and place.
#[derive(Clone, Copy, Debug, PartialEq, Eq)]
pub struct Refused {
    pub number: u32,
    pub place: usize,
}

impl Display for Refused {
    fn fmt<W: fmt::Write>(&self, f: &mut Formatter<W>) -> fmt::Result {
        writeln!(f, "refused {} {}", self.number, self.place)
    }
}

// A pair that is accepted: the signal whose values differ.
#[derive(Clone, Copy, Debug, PartialEq, Eq)]
pub struct Pair {
    pub q: u32,
}

impl Display for Pair {
    fn fmt<W: fmt::Write>(&self, f: &mut Formatter<W>) -> fmt::Result {
        writeln!(f, "pair {}", self.q)
    }
}

// A pair that is found in recorded runs: the output whose values differ, and the two records.
#[derive(Clone, Copy, Debug, PartialEq, Eq)]
pub struct Found(pub Watched);

impl Display for Found {
    fn fmt<W: fmt::Write>(&self, f: &mut Formatter<W>) -> fmt::Result {
        let Watched { q, earlier, later } = self.0;
        writeln!(f, "pair {q} {earlier} {later}")
    }
}

// What a derivation comes to: its verdict, how many signals it marks, and what it shows of the sheet where one was given.
#[derive(Clone, Copy, Debug, PartialEq, Eq)]
pub struct Summary {
    pub verdict: Verdict,
    pub count: u32,
    pub shown: Option<Shown>,
}

impl Summary {
    // The verdict and the count.
    fn verdict_line<W: fmt::Write>(&self, f: &mut Formatter<W>) -> fmt::Result {
        writeln!(f, "{} {}", self.verdict, self.count)
    }

    // How many tags are shown and which is the first that isn't, 0 where all are; nothing where no sheet was given.
    fn shown_line<W: fmt::Write>(&self, f: &mut Formatter<W>) -> fmt::Result {
        match self.shown {
            Some(Shown { count, missed }) => writeln!(f, "shown {count} {}", missed.unwrap_or(0)),
            None => Ok(()),
        }
    }
}

// A derivation that is accepted: what it comes to, and the signals whose byte is 1.
#[derive(Clone, Copy, Debug, PartialEq, Eq)]
pub struct Judged<'a> {
    pub summary: Summary,
    pub marks: &'a [u8],
}

impl Display for Judged<'_> {
    fn fmt<W: fmt::Write>(&self, f: &mut Formatter<W>) -> fmt::Result {
        self.summary.verdict_line(f)?;
        write!(f, "marks")?;
        for (mark, signal) in self.marks.iter().zip(1u32..) {
            if *mark == 1 {
                write!(f, " {signal}")?;
            }
        }
        writeln!(f)?;
        self.summary.shown_line(f)
    }
}

// A circuit, a derivation for it and what this comes to. The circuit's numbers come first, then the steps.
#[derive(Clone, Copy, Debug, PartialEq, Eq)]
pub struct Listing<'a> {
    pub circuit: &'a [u8],
    pub derivation: &'a [u8],
    pub summary: Summary,
}

impl Display for Listing<'_> {
    fn fmt<W: fmt::Write>(&self, f: &mut Formatter<W>) -> fmt::Result {
        if let CircuitAnswer::Sizes(Sizes { p, n, i, o, m }) = check_circuit(self.circuit) {
            writeln!(f, "circuit {p} {n} {i} {o} {m}")?;
        }
        let steps = (0..STEPS_MOST).map_while(|k| Step::at(self.derivation, k));
        for (step, k) in steps.zip(1u32..) {
            writeln!(f, "step {k} {step}")?;
        }
        self.summary.verdict_line(f)?;
        self.summary.shown_line(f)
    }
}

// The values of a run, a space between them.
#[derive(Clone, Copy, Debug, PartialEq, Eq)]
pub struct Run<'a>(pub &'a [u32]);

impl Display for Run<'_> {
    fn fmt<W: fmt::Write>(&self, f: &mut Formatter<W>) -> fmt::Result {
        let Some((first, others)) = self.0.split_first() else {
            return Ok(());
        };
        write!(f, "{first}")?;
        for value in others {
            write!(f, " {value}")?;
        }
        Ok(())
    }
}
