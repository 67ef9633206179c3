// The inverse modulo p, by Euclid's algorithm.
ghost use Rattle.std.specs.Prelude.{◌≡◌};
ghost use Rattle.field.specs.Inverse as specs;

// The inverse of c modulo p, 0 where there is none.
// Stays: every caller goes on with the number as a residue, 0 too, so an Option would only be taken off again.
#[tactic(auto, using(crate::proofs::Inverse::inverse_laws), unfolding(crate::specs::Inverse::inverse, crate::specs::Inverse::inverse_from))]
pub fn inverse(p: u32, c: u32) -> u32
    ensures algorithm { result ≡ specs.inverse p c }
    ensures meaning { specs.TheInverse p c result }
{
    if p < 2 {
        return 0;
    }
    let mut a = p;
    let mut b = c % p;
    let mut s = 0;
    let mut t = 1;
    let mut even = true;
    // Stays: Euclid's loop ends by what it finds.
    while 1 < b {
        let r = a % b;
        let u = s + a / b * t;
        a = b;
        b = r;
        s = t;
        t = u;
        even = !even;
    }
    if b == 0 {
        return 0;
    }
    if even { t } else { p - t }
}
