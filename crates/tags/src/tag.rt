// Tags: their kinds, and an entry of a sheet as a tag.

ghost use Rattle.std.specs.Prelude.{◌≡◌, ◌*◌, ◌-◌, ◌^◌, ◌<◌, ◌&&◌, min};
ghost use Rattle.std.specs.Option.{option_map};
ghost use Rattle.laws.specs.Step.{within};
ghost use Rattle.tags.specs.Tag.{limit, limit_by, number_fits};
ghost use Rattle.tags.specs.Sheet.{entry_start, kind_of, read_tag};
ghost use Rattle.tags.specs.Answer.{kind_in, tag_of, number_most};

use circuit::bytes::{byte_at, u16_at, u32_at};

// The size of an entry of a sheet (rule 2.5).
pub const ENTRY_SIZE: usize = 7;

// Rule 2.6: the most bits of a maxbit tag.
const BITS_MOST: u32 = 30;

// Rule 2.6: the kinds of tags.
#[derive(Clone, Copy, Debug, PartialEq, Eq)]
pub(crate) enum TagKind {
    Binary,
    Maxbit,
    Maxvalue,
}

// The largest number of so many bits, as far as 32 bits go.
#[tactic(auto, using(crate::proofs::TagLaws::largest_shifted))]
fn largest_of(bits: u32) -> u32
    ensures { result ≡ min (2 ^ bits - 1) number_most }
{
    ((1u64 << bits.min(32)) - 1) as u32
}

impl TagKind {
    // The kind with a number, if it is known.
    // Stays: the match is the conversion; TryFrom would answer a Result whose error says nothing, and the reader goes on with an Option.
    #[tactic(auto, unfolding(crate::specs::Sheet::kind_of))]
    fn from_number(number: u32) -> Option<TagKind>
        ensures { option_map kind_in result ≡ kind_of number }
    {
        match number {
            1 => Some(TagKind::Binary),
            2 => Some(TagKind::Maxbit),
            3 => Some(TagKind::Maxvalue),
            _ => None,
        }
    }

    // Whether a number goes with the kind.
    fn fits(self, number: u32, p: u32) -> bool
        ensures { result ≡ number_fits p (kind_in self) number }
    {
        match self {
            TagKind::Binary => number == 0,
            TagKind::Maxbit => number <= BITS_MOST,
            TagKind::Maxvalue => number < p,
        }
    }

    // The largest value that a tag allows, as far as 32 bits go.
    fn limit(self, number: u32) -> u32
        ensures { result ≡ min (limit_by (kind_in self) number) number_most }
    {
        match self {
            TagKind::Binary => 1,
            TagKind::Maxbit => largest_of(number),
            TagKind::Maxvalue => number,
        }
    }
}

// Rule 2.5: an entry of a sheet whose kind is known.
#[derive(Clone, Copy, Debug, PartialEq, Eq)]
pub(crate) struct Tag {
    pub signal: u32,
    pub kind: TagKind,
    pub number: u32,
}

// Where entry k starts, counted from 1: after the header and k - 1 entries, and the header is as long as an entry.
fn entry_start(k: u32) -> usize
    ensures { (result ≡ entry_start k) × (result < 30064771072) }
{
    ENTRY_SIZE * (k as usize)
}

impl Tag {
    // Entry k, counted from 1.
    #[tactic(auto, unfolding(crate::specs::Sheet::read_tag))]
    pub(crate) fn read(sheet: &[u8], k: u32) -> Option<Tag>
        ensures { option_map tag_of result ≡ read_tag sheet.now k }
    {
        let at = entry_start(k);
        let kind = TagKind::from_number(byte_at(sheet, at + 2))?;
        Some(Tag {
            signal: u16_at(sheet, at),
            kind,
            number: u32_at(sheet, at + 3),
        })
    }

    // Whether the tag doesn't meet refusal 27: its signal is 1 to n, and its number goes with its kind.
    #[tactic(auto, unfolding(laws::specs::Step::within))]
    pub(crate) fn fits(self, n: u32, p: u32) -> bool
        ensures { result ≡ within n self.signal && number_fits p (kind_in self.kind) self.number }
    {
        (1..=n).contains(&self.signal) && self.kind.fits(self.number, p)
    }

    // The largest value that the tag allows, as far as 32 bits go.
    #[tactic(auto, unfolding(crate::specs::Tag::limit))]
    pub(crate) fn limit(self) -> u32
        ensures { result ≡ min (limit (tag_of self)) number_most }
    {
        self.kind.limit(self.number)
    }
}
