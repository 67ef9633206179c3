// How many calls of each kind agree with the vectors.

use crate::record::{Kind, Records, Unreadable};
use std::alloc::{AllocError, Global};
use std::collections::BTreeMap;
use std::fmt;
use std::fmt::{Display, Formatter};

// Room for what any call writes.
const BUFFER: usize = 32768;

// How many calls there are of a kind, and how many of them agree.
#[derive(Clone, Copy, Debug, Default, PartialEq, Eq)]
pub struct Count {
    calls: u32,
    agreeing: u32,
}

// The counts by kind, and the number of the first record that doesn't agree.
#[derive(Debug, Drop, PartialEq, Eq)]
pub struct Tally {
    counts: BTreeMap<Kind, Count>,
    differing: Option<u32>,
}

impl Tally {
    // Makes the call of each record. One that can't be read differs, and counts among its kind where the file ends within it.
    pub(crate) fn of(alloc: Global, file: &[u8]) -> Result<Tally, AllocError> {
        let mut buffer = vec![in alloc; 0; BUFFER]?;
        let mut tally = Tally {
            counts: BTreeMap::new(alloc),
            differing: None,
        };
        for (record, number) in Records::of(file).zip(1u32..) {
            let agrees = match record {
                Ok(record) => {
                    let agrees = record.agrees(alloc, &mut buffer)?;
                    if record.counted {
                        tally.add(record.kind, agrees)?;
                    }
                    agrees
                }
                Err(Unreadable::End(Some(kind))) => {
                    tally.add(kind, false)?;
                    false
                }
                Err(_) => false,
            };
            if !agrees {
                tally.differing = tally.differing.or(Some(number));
            }
        }
        Ok(tally)
    }

    fn add(&mut self, kind: Kind, agrees: bool) -> Result<(), AllocError> {
        let count = self.counts.entry(kind)?.or_default();
        count.calls = count.calls.saturating_add(1);
        count.agreeing = count.agreeing.saturating_add(u32::from(agrees));
        Ok(())
    }
}

impl Display for Tally {
    fn fmt<W: fmt::Write>(&self, f: &mut Formatter<W>) -> fmt::Result {
        for kind in Kind::ALL {
            let Count { calls, agreeing } = self.counts.get(&kind).copied().unwrap_or_default();
            writeln!(f, "{kind}: {agreeing} of {calls} agree")?;
        }
        match self.differing {
            None => writeln!(f, "all agree"),
            Some(number) => writeln!(f, "the first that differs: record {number}"),
        }
    }
}
