// Reading a circuit file: forms and constraints, each from its own part of the bytes, and the check of the whole file.

ghost use Rattle.std.specs.Prelude.{◌≡◌, ◌+◌, ◌^◌, ◌≤◌, ◌<◌, length};
ghost use Rattle.circuit.specs.Reading.{size_of, further, extent};
ghost use Rattle.circuit.specs.Reader.{header_size, read_form, form_from, read_constraint, after_form, after_constraint, has_mark, has_version, file_start, sizes_fit};
ghost use Rattle.circuit.specs.Answer.{answer_of, answer_by, found_of, paper_of};
ghost use Rattle.circuit.specs.Call.{header_of, header_call, body_call, circuit_call, SizedAnswer};

use crate::bytes::{byte_at, u16_at, u32_at};
use crate::file::CircuitFile;
use crate::form::{Forms, form_size, term_at, term_count};
use crate::refusal::{Reason, Refusal};
use field::is_odd_prime;

// The sizes of rule 1.7, those of the header and of a term, and the version of every file.
// Stays: arrays over all signals or constraints, with 0, have 257 and 513 places, numbers in their types as the paper writes them.
pub const HEADER_SIZE: usize = 17;

pub const FILE_MOST: usize = 60000;

pub const SIGNALS_MOST: u32 = 256;

pub const CONSTRAINTS_MOST: u32 = 512;

const TERMS_MOST: u32 = 32;

pub const TERM_SIZE: usize = 6;

const VERSION: u32 = 1;

// A file's mark: its letter, C for a circuit, then Q and T.
const CIRCUIT_LETTER: u32 = b'C' as u32;

const LETTER_Q: u32 = b'Q' as u32;

const LETTER_T: u32 = b'T' as u32;

// The header's numbers: the prime, how many signals, inputs, outputs and constraints there are.
#[derive(Clone, Copy, Debug, PartialEq, Eq)]
pub struct Sizes {
    pub p: u32,
    pub n: u32,
    pub i: u32,
    pub o: u32,
    pub m: u32,
}

// The call's answer: a refusal's number and place, or the header's numbers.
// Stays: the form that docs/DECISIONS.md names, one enum for each call.
#[derive(Clone, Copy, Debug, PartialEq, Eq)]
pub enum CircuitAnswer {
    Refused { number: u32, place: usize },
    Sizes(Sizes),
}

impl<'a> From<Result<CircuitFile<'a>, Refusal>> for CircuitAnswer {
    ghost from_gives = { λ found answer. paper_of answer ≡ answer_by (λ f. f.sizes) found };

    fn from(found: Result<CircuitFile<'a>, Refusal>) -> CircuitAnswer {
        match found {
            Ok(file) => CircuitAnswer::Sizes(file.sizes),
            Err(refusal) => CircuitAnswer::Refused {
                number: refusal.number(),
                place: refusal.place,
            },
        }
    }
}

// The term reader: a form from its own part of the circuit bytes, the count byte and then that many terms. What reading a part finds is its size in
// bytes, or a refusal whose place is an offset in the part.
// Stays: n and p, here and in `check_form_at` and `check_constraint`, since a form is tested by these of the header's five numbers alone.
fn check_form(part: &[u8], n: u32, p: u32) -> Result<usize, Refusal>
    ensures { found_of result ≡ size_of (read_form n p part.now) }
{
    if part.is_empty() {
        return Err(Reason::EndsEarly.at(0));
    }
    let count = term_count(part);
    if TERMS_MOST < count {
        return Err(Reason::TermCount.at(0));
    }
    let mut least: u32 = 0;
    for i in 0..count {
        let at = form_size(i);
        if part.len() < at + TERM_SIZE {
            return Err(Reason::EndsEarly.at(at));
        }
        let term = term_at(part, i);
        if !(least..=n).contains(&term.signal) {
            return Err(Reason::SignalNumber.at(at));
        }
        if !(1..p).contains(&term.coefficient) {
            return Err(Reason::Coefficient.at(at));
        }
        least = term.signal + 1;
    }
    Ok(form_size(count))
}

// The same with offsets that count from `at` bytes earlier.
fn shifted(found: Result<usize, Refusal>, at: usize) -> Result<usize, Refusal>
    requires { at + extent (found_of found) < 2 ^ 64 }
    ensures { found_of result ≡ further at (found_of found) }
{
    match found {
        Ok(size) => Ok(at + size),
        Err(refusal) => Err(refusal.reason.at(at + refusal.place)),
    }
}

// The form that starts at an offset: its part is lent to the term reader, and the answer counts from the whole's start.
fn check_form_at(s: &[u8], at: usize, n: u32, p: u32) -> Result<usize, Refusal>
    requires { at ≤ length s.now }
    ensures { (found_of result ≡ form_from n p s.now at) × (extent (found_of result) ≤ length s.now) }
{
    let form = check_form(&s[at..], n, p);
    shifted(form, at)
}

// Three forms, each from the part after the one before it.
fn check_constraint(s: &[u8], n: u32, p: u32) -> Result<usize, Refusal>
    ensures { found_of result ≡ size_of (read_constraint n p s.now) }
{
    let b_at = check_form_at(s, 0, n, p)?;
    let c_at = check_form_at(s, b_at, n, p)?;
    check_form_at(s, c_at, n, p)
}

// The rest after a form whose count byte stands first; nothing where the bytes end before.
#[tactic(auto, unfolding(crate::specs::Reader::after_form))]
pub fn after_form(s: &[u8]) -> &[u8]
    ensures { result.now ≡ after_form s.now }
{
    s.get(form_size(term_count(s))..).unwrap_or(&[])
}

// The constraint reader: hands back the part of the caller's bytes after one constraint.
#[tactic(auto, unfolding(crate::specs::Reader::after_constraint))]
pub(crate) fn after_constraint(s: &[u8]) -> &[u8]
    ensures { result.now ≡ after_constraint s.now }
{
    after_form(Forms::of(s).c)
}

// The constraints after the header, each read from the part after the one before it, and nothing after them.
pub(crate) fn check_body(s: &[u8], sizes: Sizes) -> Result<(), Refusal>
    requires { header_size ≤ length s.now }
    ensures { answer_by (λ done. sizes) result ≡ body_call s.now sizes }
{
    let mut rest = &s[HEADER_SIZE..];
    let mut at: usize = HEADER_SIZE;
    for _ in 0..sizes.m {
        at = shifted(check_constraint(rest, sizes.n, sizes.p), at)?;
        rest = after_constraint(rest);
    }
    if at < s.len() {
        return Err(Reason::BytesLeft.at(at));
    }
    Ok(())
}

// Whether a file starts with its mark.
#[tactic(auto, unfolding(crate::specs::Reader::has_mark))]
pub fn has_mark(s: &[u8], letter: u32) -> bool
    ensures { result ≡ has_mark letter s.now }
{
    byte_at(s, 0) == letter && byte_at(s, 1) == LETTER_Q && byte_at(s, 2) == LETTER_T
}

// Whether a file has the version that is read.
pub fn has_version(s: &[u8]) -> bool
    ensures { result ≡ has_version s.now }
{
    u16_at(s, 3) == VERSION
}

// The first bytes of a derivation or a pair: the letter of its mark, the others, version 1, and a 16-bit number.
pub fn file_start(letter: u8, number: u16) -> [u8; 7]
    ensures { result ≡ file_start letter number }
{
    let [version_low, version_high] = (VERSION as u16).to_le_bytes();
    let [low, high] = number.to_le_bytes();
    [
        letter,
        LETTER_Q as u8,
        LETTER_T as u8,
        version_low,
        version_high,
        low,
        high,
    ]
}

impl Sizes {
    // The numbers in the header.
    fn of(s: &[u8]) -> Sizes
        ensures { result ≡ header_of s.now }
    {
        Sizes {
            p: u32_at(s, 5),
            n: u16_at(s, 9),
            i: u16_at(s, 11),
            o: u16_at(s, 13),
            m: u16_at(s, 15),
        }
    }

    // Whether n, o, i + o and m keep their sizes.
    #[tactic(auto, unfolding(crate::specs::Reader::sizes_fit))]
    fn fit(self) -> bool
        ensures { result ≡ sizes_fit self.n self.i self.o self.m }
    {
        (1..=SIGNALS_MOST).contains(&self.n)
            && 1 <= self.o
            && u64::from(self.i) + u64::from(self.o) <= u64::from(self.n)
            && self.m <= CONSTRAINTS_MOST
    }
}

// The header: refusals 1 to 5 in reading order, or its numbers.
#[tactic(auto, unfolding(crate::specs::Call::header_call))]
pub(crate) fn read_header(s: &[u8]) -> Result<Sizes, Refusal>
    ensures { answer_of result ≡ header_call s.now }
{
    if s.len() < HEADER_SIZE || FILE_MOST < s.len() {
        return Err(Reason::CircuitLength.at(0));
    }
    if !has_mark(s, CIRCUIT_LETTER) {
        return Err(Reason::CircuitMark.at(0));
    }
    if !has_version(s) {
        return Err(Reason::CircuitVersion.at(0));
    }
    let sizes = Sizes::of(s);
    if !is_odd_prime(sizes.p) {
        return Err(Reason::NotPrime.at(0));
    }
    if !sizes.fit() {
        return Err(Reason::SizesOut.at(0));
    }
    Ok(sizes)
}

// The circuit call (rule 6.5): refusals 1 to 10 in reading order, or the header's numbers.
pub fn check_circuit(s: &[u8]) -> CircuitAnswer
    ensures answer { paper_of result ≡ circuit_call s.now }
    ensures sized { SizedAnswer s.now (paper_of result) }
{
    CircuitAnswer::from(CircuitFile::read(s))
}
