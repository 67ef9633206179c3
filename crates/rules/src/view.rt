// Elements of arrays by signal, also past the end.
// Stays: a function for each, since what stands past the end is another each time.

ghost use Rattle.std.specs.Prelude.{◌≡◌};
ghost use Rattle.rules.specs.View.{bound_in, mark_in};

// The bound of signal s.
#[tactic(auto, unfolding(crate::specs::View::bound_in))]
pub fn bound_at(bounds: &[u32], s: usize, p: u32) -> u32
    ensures { result ≡ bound_in p bounds.now s }
{
    bounds.get(s).copied().unwrap_or(p.saturating_sub(1))
}

// The mark of signal s.
#[tactic(auto, unfolding(crate::specs::View::mark_in))]
pub fn mark_at(marks: &[bool], s: usize) -> bool
    ensures { result ≡ mark_in marks.now s }
{
    marks.get(s).copied().unwrap_or(false)
}
