// Arithmetic on 32-bit numbers that is exact in 64 bits.
// Stays: `0 < p` in the `requires` of private functions, here and in the files that call these: a type for it would be put on and taken off in each, which is
// no plainer, and the check proves the clause alone at every call.

ghost use Rattle.std.specs.Prelude.{◌≡◌, ◌+◌, ◌*◌, ◌%◌, ◌≤◌, ◌<◌};
ghost use Rattle.field.specs.Residue as field;

// v modulo p, without a division where v is below p, as it often is.
fn residue(v: u64, p: u32) -> u32
    requires { 0 < p }
    ensures { (result ≡ v % p) × (result < p) }
{
    if v < u64::from(p) {
        v as u32
    } else {
        (v % u64::from(p)) as u32
    }
}

// -x modulo p, from 1 to p.
#[tactic(auto, unfolding(field::specs::Residue::opposite))]
pub(crate) fn opposite(x: u32, p: u32) -> u32
    requires { 0 < p }
    ensures { result ≡ field.opposite p x }
{
    p - residue(u64::from(x), p)
}

// x + a·b modulo p.
#[tactic(auto, using(crate::proofs::Products::product_room))]
pub(crate) fn multiply_add(x: u32, a: u32, b: u32, p: u32) -> u32
    requires { 0 < p }
    ensures { (result ≡ (x + a * b) % p) × (result < p) }
{
    residue(u64::from(x) + u64::from(a) * u64::from(b), p)
}

// The same without a product where a is -1, as it is for the third form of a constraint.
// Stays: beside `multiply_add`, by which alone the row of a constraint of 3 × 32 terms took 1.13 times as long.
#[tactic(auto, using(crate::proofs::Products::minus_one))]
pub(crate) fn add_multiple(x: u32, a: u32, b: u32, p: u32) -> u32
    requires { 0 < p }
    ensures { (result ≡ (x + a * b) % p) × (result < p) }
{
    if a == p - 1 && b <= p {
        residue(u64::from(x) + u64::from(p - b), p)
    } else {
        multiply_add(x, a, b, p)
    }
}

// a·b, which leaves room for a 32-bit number more.
#[tactic(auto, using(crate::proofs::Products::product_room))]
pub(crate) fn product(a: u32, b: u32) -> u64
    ensures { (result ≡ a * b) × (result ≤ 18446744065119617025) }
{
    u64::from(a) * u64::from(b)
}
