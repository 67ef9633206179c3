// Little-endian numbers in bytes, for all offsets: past the end every byte is 0.

ghost use Rattle.std.specs.Prelude.{◌≡◌, ◌<◌};
ghost use Rattle.circuit.specs.Bytes.{byte_at, u16_at, u32_at};

#[tactic(auto, unfolding(crate::specs::Bytes::byte_at))]
pub fn byte_at(s: &[u8], at: usize) -> u32
    ensures { (result ≡ byte_at s.now at) × (result < 256) }
{
    s.get(at).copied().map_or(0, u32::from)
}

// After the two tests of the length neither byte has a test of its own, so that both are loaded at once.
// Stays: by a slice pattern, here alone, reading 512 constraints of 18 terms took 1.23 times the instructions, and 56 µs for 35.
#[tactic(auto, unfolding(crate::specs::Bytes::byte_at, crate::specs::Bytes::u16_at))]
pub fn u16_at(s: &[u8], at: usize) -> u32
    ensures { (result ≡ u16_at s.now at) × (result < 65536) }
{
    if s.len() <= at {
        return 0;
    }
    if s.len() - at < 2 {
        return byte_at(s, at);
    }
    u32::from(s[at]) + 256 * u32::from(s[at + 1])
}

// After the two tests of the length all four are loaded at once.
// Stays: by a slice pattern, here alone, with `from_le_bytes` or without, copying 256 values took 1.17 times the instructions, and 0.35 µs for 0.19.
#[tactic(auto, unfolding(crate::specs::Bytes::byte_at, crate::specs::Bytes::u16_at, crate::specs::Bytes::u32_at))]
pub fn u32_at(s: &[u8], at: usize) -> u32
    ensures { result ≡ u32_at s.now at }
{
    if s.len() <= at {
        return 0;
    }
    if s.len() - at < 4 {
        return u16_at(s, at) + 65536 * u16_at(s, at + 2);
    }
    u32::from(s[at])
        + 256 * u32::from(s[at + 1])
        + 65536 * (u32::from(s[at + 2]) + 256 * u32::from(s[at + 3]))
}
