// The prime field of a circuit: the test for an odd prime, and the inverse modulo it.
#![tactic(auto)]

ghost use Rattle.std.specs.Prelude.{◌≡◌, ℕ, true, ◌*◌, ◌%◌, ◌≤◌, ◌<◌, leb, length, get_or, position};
ghost use Rattle.field.specs.Divisors.{Enough, Next, paired};
ghost use Rattle.field.specs.Prime.{odd_prime, TellsOddPrime};

pub mod modular;
mod table;

use table::{DIVISORS, INVERSES, SMALL_DIVISORS, SMALL_INVERSES};

// The largest prime that a circuit may have, and where the short tables end: the square of 1,031, the first prime that they lack.
const PRIME_MOST: u32 = 2147483647;

const SMALL_END: u32 = 1062961;

// The least product of p and an entry, each modulo 4,294,967,296.
fn least_product(run: &[u32], p: u32) -> u32
    ensures { (j : ℕ) → j < length run.now → result ≤ p * get_or run.now j 0 % 4294967296 }
{
    let mut least = u32::MAX;
    for v in run {
        least = least.min(p.wrapping_mul(*v));
    }
    least
}

// The first place in a run whose entry times p is at most q modulo 4,294,967,296.
fn candidate_in(run: &[u32], p: u32, q: u32) -> Option<usize>
    ensures { result ≡ position (λ v. leb (p * v % 4294967296) q) run.now }
{
    run.iter().position(|v| p.wrapping_mul(*v) <= q)
}

// The first place from start to end whose entry times p is at most q modulo 4,294,967,296; end where there is none, from which the walk goes on.
// Most runs have no such place, as their least product shows, which is computed of several places at a time.
// Stays: the end is no number for none, the walk goes on from it; an Option would be opened to it by its one caller. And a match: with `map_or` the reader,
// into which this is compiled, took 1.09 times the instructions on a circuit of 512 constraints, and about 60 µs for 42.
fn next_candidate(inverses: &[u32], p: u32, q: u32, start: usize, end: usize) -> usize
    requires { (start ≤ end) × (end ≤ length inverses.now) }
    ensures { Next inverses.now p q start end result }
{
    let run = &inverses[start..end];
    if q < least_product(run, p) {
        return end;
    }
    match candidate_in(run, p, q) {
        Some(k) => start + k,
        None => end,
    }
}

// The end of a run of places after i: any would do. This one is about as long as what was passed before, and then p is compared with a square again.
fn run_end(i: usize, end: usize) -> usize
    requires { i < end }
    ensures { (i < result) × (result ≤ end) }
{
    end.min(i.saturating_mul(2).saturating_add(3))
}

// Whether p is an odd prime, by trial division with a table that is enough for p. After d, which doesn't divide p, divisors are passed over
// without a division: where e divides p, p times the inverse of e is the quotient modulo 4,294,967,296, and it's at most p / d for e above d.
// Stays: two tables, since the search reads the inverses alone; of one table of pairs the test of the largest prime took 1.10 µs for 0.72.
#[tactic(auto, using(crate::proofs::Prime::low_not, crate::proofs::Prime::even_not))]
fn odd_prime_by(table: &[u16], inverses: &[u32], p: u32) -> bool
    requires { (p ≤ 2147483647) × Enough table.now p × (paired table.now inverses.now ≡ true) }
    ensures { result ≡ odd_prime p }
{
    if p < 3 || p % 2 == 0 {
        return false;
    }
    let mut i = 0;
    // Stays: the next place is the one that the search finds.
    while i < table.len() {
        let d = u32::from(table[i]);
        if p < d * d {
            return true;
        }
        if p % d == 0 {
            return false;
        }
        i = next_candidate(inverses, p, p / d, i + 1, run_end(i, table.len()));
    }
    true
}

// The test by the long tables. It stands apart, so that a test by the short ones names no others.
fn large_odd_prime(p: u32) -> bool
    requires { p ≤ 2147483647 }
    ensures { result ≡ odd_prime p }
{
    odd_prime_by(&DIVISORS, &INVERSES, p)
}

// Whether p is an odd prime, 3 to 2,147,483,647. The short tables serve below the square of 1,031.
#[tactic(auto, using(crate::proofs::Prime::odd_prime_told, crate::proofs::Prime::high_not))]
pub fn is_odd_prime(p: u32) -> bool
    ensures test { result ≡ odd_prime p }
    ensures prime { TellsOddPrime p result }
{
    if p < SMALL_END {
        return odd_prime_by(&SMALL_DIVISORS, &SMALL_INVERSES, p);
    }
    if PRIME_MOST < p {
        return false;
    }
    large_odd_prime(p)
}
