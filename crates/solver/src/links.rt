// Links between the entries of rows that hold the same signal, by which what is kept of the constraints that name it is found.

ghost use Rattle.std.specs.Prelude.{◌≤◌, length};
ghost use Rattle.solver.specs.Links.{Linkable, Linked, SameOwners, Owned};

use rules::rows::Entry;

// Of an entry: one more than the place of the last entry before it with the same signal, 0 where there is none; and whose row it is in.
// Stays: a list linked by places in one array, for want of a heap; 0 for none, since an Option would take 6 bytes for 4, 10,513 times.
#[derive(Clone, Copy, Debug, PartialEq, Eq)]
pub(crate) struct Link {
    pub before: u16,
    pub owner: u16,
}

impl Link {
    // Of no row: what fills an array of links.
    // Stays: no Option of a link, which would take 6 bytes for 4 too.
    pub const NONE: Link = Link {
        before: 0,
        owner: 0,
    };
}

// Notes that the entries from start to end are those of constraint k.
pub(crate) fn own(links: &mut [Link], start: usize, end: usize, k: u16)
    requires { (start ≤ end) × (end ≤ length links.old) }
    ensures { Owned k start end links.old links.new }
{
    for link in &mut links[start..end] {
        link.owner = k;
    }
}

// Links each of the first `end` entries to the last one before it with the same signal.
// Stays: links and lasts by index, since nothing is known of a slice's elements after its `get_mut`, or after its `iter_mut` in a `zip`.
pub(crate) fn link_entries(rows: &[Entry], lasts: &mut [u16], links: &mut [Link], end: usize)
    requires { Linkable end rows.now lasts.old links.old }
    ensures linked { Linked rows.now end lasts.new links.new }
    ensures owned { SameOwners links.old links.new }
{
    for (e, entry) in rows[..end].iter().enumerate() {
        let signal = usize::from(entry.signal);
        links[e].before = lasts.get(signal).copied().unwrap_or(0);
        if signal < lasts.len() {
            lasts[signal] = e as u16 + 1;
        }
    }
}
