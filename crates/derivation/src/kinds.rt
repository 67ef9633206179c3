// The table of kinds: which number is of which, and what the fields of a step may be.

ghost use Rattle.std.specs.Prelude.{◌≡◌};
ghost use Rattle.laws.specs.Step as laws;
ghost use Rattle.derivation.specs.Steps.{kind_of};
ghost use Rattle.derivation.specs.Inner.{kind_found, range_of, EntryOf};

use rules::standing::Kind;

// The kinds, in the order of their numbers.
// Stays: a list to search, since Rattle derives none of an enum's cases.
const KINDS: [Kind; 7] = [
    Kind::Root,
    Kind::Sum,
    Kind::Zero,
    Kind::Product,
    Kind::Digits,
    Kind::Nonzero,
    Kind::Quotient,
];

// What the table says of a kind: whether the constraint field names a constraint, and the reference field a signal.
// Stays: two flags, since both are handed to `field_within`, which asks of either field the same.
#[derive(Clone, Copy, Debug, PartialEq, Eq)]
pub(crate) struct Entry {
    pub names: bool,
    pub refers: bool,
}

pub(crate) fn entry_of(kind: Kind) -> Entry
    ensures { EntryOf kind result }
{
    let (names, refers) = match kind {
        Kind::Root | Kind::Sum | Kind::Product | Kind::Nonzero => (true, false),
        Kind::Zero => (false, false),
        Kind::Digits | Kind::Quotient => (true, true),
    };
    Entry { names, refers }
}

// The kind with a number.
#[tactic(auto, unfolding(crate::specs::Steps::kind_of, crate::specs::Steps::numbered))]
pub fn kind_of(number: u8) -> Option<Kind>
    ensures { kind_found result ≡ kind_of number }
{
    KINDS.iter().copied().find(|kind| number == kind.number())
}

// Whether s is from 1 to n.
#[tactic(auto, unfolding(laws::specs::Step::within))]
pub(crate) fn within(n: u32, s: u32) -> bool
    ensures { result ≡ laws.within n s }
{
    (1..=n).contains(&s)
}

// Whether a field is in range: from 1 to `most` where it names something, else 0.
pub(crate) fn field_within(named: bool, most: u32, x: u32) -> bool
    ensures { result ≡ laws.inside (range_of named most) x }
{
    if named { within(most, x) } else { x == 0 }
}
