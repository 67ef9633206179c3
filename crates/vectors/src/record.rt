// A record of the vectors' file: a call's kind, its arguments, and the answer that it must get.

ghost use Rattle.std.specs.Iterator.{at_most};

use std::fmt;
use std::fmt::{Display, Formatter};

// In place of a length: the bytes are those of the record before.
const SAME: u32 = 0xffff_ffff;

// A kind that is judged as a renewal and not counted. No file that `second/` makes has it.
const UNCOUNTED: u8 = 0;

// The length of the file's mark and version, before the number of its records.
const MARK: usize = 5;

// The kinds of calls, 1 to 8 in the file.
#[derive(Clone, Copy, Debug, PartialEq, Eq, PartialOrd, Ord)]
pub enum Kind {
    Read,
    Derivation,
    Pair,
    Solve,
    Renew,
    FirstRun,
    NextRun,
    Watch,
}

impl Kind {
    // All of them, in the order of their numbers.
    // Stays: a list by hand, since Rattle derives none of an enum's cases.
    pub const ALL: [Kind; 8] = [
        Kind::Read,
        Kind::Derivation,
        Kind::Pair,
        Kind::Solve,
        Kind::Renew,
        Kind::FirstRun,
        Kind::NextRun,
        Kind::Watch,
    ];

    // How many bytes of the file stand for one place of the lent buffer: those that list runs are lent values.
    pub(crate) fn width(self) -> usize {
        match self {
            Kind::FirstRun | Kind::NextRun => 4,
            _ => 1,
        }
    }
}

// The kind with a number.
// Stays: a match, since Rattle derives no enum from its number, and a search of `ALL` would be no plainer.
impl TryFrom<u8> for Kind {
    type Error = Unreadable;

    fn try_from(number: u8) -> Result<Kind, Unreadable> {
        match number {
            1 => Ok(Kind::Read),
            2 => Ok(Kind::Derivation),
            3 => Ok(Kind::Pair),
            4 => Ok(Kind::Solve),
            5 | UNCOUNTED => Ok(Kind::Renew),
            6 => Ok(Kind::FirstRun),
            7 => Ok(Kind::NextRun),
            8 => Ok(Kind::Watch),
            _ => Err(Unreadable::Kind),
        }
    }
}

// The word that is printed.
// Stays: a match, since std derives no Display, and thiserror's would make an error of a kind.
impl Display for Kind {
    fn fmt<W: fmt::Write>(&self, f: &mut Formatter<W>) -> fmt::Result {
        f.write_str(match self {
            Kind::Read => "read",
            Kind::Derivation => "derivation",
            Kind::Pair => "pair",
            Kind::Solve => "solve",
            Kind::Renew => "renew",
            Kind::FirstRun => "first run",
            Kind::NextRun => "next run",
            Kind::Watch => "watch",
        })
    }
}

// Why there is no record: its kind is none, or the file ends within it, and then its kind where that is one.
#[derive(Clone, Copy, Debug, PartialEq, Eq)]
pub enum Unreadable {
    Kind,
    End(Option<Kind>),
}

// A refusal's number and place, as wide as the file has them.
#[derive(Clone, Copy, Debug, PartialEq, Eq)]
pub struct Refusal {
    pub number: u16,
    pub place: u32,
}

// `counted` tells whether the call is counted among those of its kind; `sheet` is a tag sheet, or the window of a watching call, `lent` how many places the lent buffer has, `answer` the values that the call must return or hand
// over, or its refusal, and `written` what it must write at the buffer's start.
#[derive(Clone, Copy, Debug, PartialEq, Eq)]
pub struct Record<'a> {
    pub kind: Kind,
    pub counted: bool,
    pub circuit: &'a [u8],
    pub sheet: &'a [u8],
    pub hand_in: &'a [u8],
    pub lent: usize,
    pub answer: Result<[u32; 5], Refusal>,
    pub written: &'a [u8],
}

// What is left of a file, and the circuit and the hand-in of the record before.
#[derive(Debug, Drop, PartialEq, Eq)]
struct Reader<'a> {
    rest: &'a [u8],
    circuit: &'a [u8],
    hand_in: &'a [u8],
}

impl<'a> Reader<'a> {
    // So many bytes, if the file has them.
    fn take(&mut self, length: usize) -> Result<&'a [u8], Unreadable> {
        let (taken, rest) = self
            .rest
            .split_at_checked(length)
            .ok_or(Unreadable::End(None))?;
        self.rest = rest;
        Ok(taken)
    }

    fn array<const N: usize>(&mut self) -> Result<[u8; N], Unreadable> {
        self.take(N)?.try_into().map_err(|_| Unreadable::End(None))
    }

    fn number(&mut self) -> Result<u32, Unreadable> {
        Ok(u32::from_le_bytes(self.array()?))
    }

    // Bytes after their length.
    fn bytes(&mut self) -> Result<&'a [u8], Unreadable> {
        let length = self.number()?;
        self.take(length as usize)
    }

    // The same, or those that the record before has there.
    fn bytes_or(&mut self, last: &'a [u8]) -> Result<&'a [u8], Unreadable> {
        match self.number()? {
            SAME => Ok(last),
            length => self.take(length as usize),
        }
    }

    // The header, which ends in the number of records.
    fn count(&mut self) -> Result<u32, Unreadable> {
        self.take(MARK)?;
        self.number()
    }

    // A refusal's number and place, and five values; where the number is 0 they are the answer.
    fn answer(&mut self) -> Result<Result<[u32; 5], Refusal>, Unreadable> {
        let number = u16::from_le_bytes(self.array()?);
        let place = self.number()?;
        let mut values = [0; 5];
        for value in &mut values {
            *value = self.number()?;
        }
        if number == 0 {
            Ok(Ok(values))
        } else {
            Ok(Err(Refusal { number, place }))
        }
    }

    // The next record, read to its end before its kind is looked at.
    fn record(&mut self) -> Result<Record<'a>, Unreadable> {
        let [number] = self.array::<1>()?;
        let kind = Kind::try_from(number);
        let fields = self.fields();
        let Ok(fields) = fields else {
            let named = if number == UNCOUNTED { None } else { kind.ok() };
            return Err(Unreadable::End(named));
        };
        Ok(Record {
            kind: kind?,
            counted: number != UNCOUNTED,
            ..fields
        })
    }

    // What comes after its kind.
    fn fields(&mut self) -> Result<Record<'a>, Unreadable> {
        self.circuit = self.bytes_or(self.circuit)?;
        let sheet = self.bytes()?;
        self.hand_in = self.bytes_or(self.hand_in)?;
        let lent = self.number()? as usize;
        let answer = self.answer()?;
        let written = self.bytes()?;
        Ok(Record {
            kind: Kind::Renew,
            counted: false,
            circuit: self.circuit,
            sheet,
            hand_in: self.hand_in,
            lent,
            answer,
            written,
        })
    }
}

// The records of a file, of which so many are to come.
#[derive(Debug, Drop, PartialEq, Eq)]
pub struct Records<'a> {
    reader: Reader<'a>,
    left: u32,
}

impl<'a> Records<'a> {
    // Those after the header; none are to come where the file has no whole header.
    pub(crate) fn of(file: &'a [u8]) -> Records<'a> {
        let mut reader = Reader {
            rest: file,
            circuit: &[],
            hand_in: &[],
        };
        let left = reader.count().unwrap_or(0);
        Records { reader, left }
    }
}

// Nothing more comes where the file ends.
impl<'a> Iterator for Records<'a> {
    type Item = Result<Record<'a>, Unreadable>;

    ghost remaining = { λ s. at_most s.left };

    fn next(&mut self) -> Option<Result<Record<'a>, Unreadable>> {
        if self.left == 0 || self.reader.rest.is_empty() {
            return None;
        }
        self.left -= 1;
        let record = self.reader.record();
        if let Err(Unreadable::End(None)) = record {
            self.left = 0;
        }
        Some(record)
    }
}
