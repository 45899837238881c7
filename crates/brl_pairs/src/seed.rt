//! Seeds, by which a set hashes its members.
ghost use Rattle.std.specs.Prelude.{◌≡◌, ◌≤◌, ◌+◌, ◌^◌, ◌<◌, slice_index};
ghost use Rattle.std.specs.Int.{from_le_bytes, w64};
ghost use Rattle.sha2.specs.Sha256.{sha256};
ghost use Rattle.brl_pairs.specs.Seed.{after_number, folded, number_at};

use sha2::{Digest, Sha256};
use std::hash::{BuildHasher, Hasher};

/// The modulus of the hashes is one less than this power of two.
const POWER: u64 = 1 << 61;

/// What the hashes of a set depend on beside its members: the point at which a polynomial is
/// evaluated, and what it begins with. Whoever makes the members can't know the seed that is drawn
/// from them: it changes with each of their bytes (DECISIONS, 'Seeds').
#[derive(Clone, Copy)]
pub struct Seed {
    pub start: u64,
    pub point: u64,
}

impl Seed {
    /// The seed that is drawn from these bytes: the first 16 bytes of their SHA-256 digest.
    pub fn of(bytes: &[u8]) -> Seed
        ensures start { result.start ≡ number_at 0 (sha256 bytes.now) }
        ensures point { result.point ≡ number_at 8 (sha256 bytes.now) }
    {
        let digest = Sha256::digest(bytes);
        Seed {
            start: number(&digest, 0),
            point: number(&digest, 8),
        }
    }
}

/// The number that eight bytes of a digest spell, the lowest first.
fn number(digest: &[u8; 32], at: usize) -> u64
    requires { at ≤ 24 }
    ensures { result ≡ number_at at digest.now }
{
    number_of(&digest[at..at + 8])
}

/// The number that the first eight of these bytes spell, the lowest first. Where there are fewer,
/// the others count as 0.
#[inline(always)]
fn number_of(bytes: &[u8]) -> u64
    ensures { result ≡ from_le_bytes w64 bytes.now }
{
    u64::from_le_bytes([
        byte_at(bytes, 0),
        byte_at(bytes, 1),
        byte_at(bytes, 2),
        byte_at(bytes, 3),
        byte_at(bytes, 4),
        byte_at(bytes, 5),
        byte_at(bytes, 6),
        byte_at(bytes, 7),
    ])
}

/// The byte at a place, or 0.
#[inline(always)]
fn byte_at(bytes: &[u8], place: usize) -> u8
    ensures { result ≡ slice_index bytes.now place }
{
    match bytes.get(place) {
        Some(byte) => *byte,
        None => 0,
    }
}

impl BuildHasher for Seed {
    type Hasher = SeededHasher;

    ghost use Rattle.brl_pairs.specs.Seed.{hasher_of};

    ghost build_hasher = { hasher_of };

    fn build_hasher(&self) -> SeededHasher {
        SeededHasher {
            state: self.start,
            point: self.point,
        }
    }
}

/// A hash by a seed: the value of a polynomial at the seed's point, modulo 2^61 - 1. Its
/// coefficients are the numbers that are written. Two members that write n numbers have one hash at
/// n of the points at most.
#[derive(Clone, Copy)]
pub struct SeededHasher {
    state: u64,
    point: u64,
}

impl SeededHasher {
    /// Goes on by a number.
    #[inline(always)]
    fn add(&mut self, number: u64)
        ensures { self.new ≡ after_number self.old number }
    {
        let factor = (self.point % POWER) as u128;
        let sum = fold(self.state as u128) as u128 * factor + number as u128;
        self.state = fold(sum);
    }
}

/// A smaller number with the same remainder modulo 2^61 - 1.
#[inline(always)]
fn fold(number: u128) -> u64
    requires { number < 2 ^ 124 }
    ensures value { result ≡ folded number }
    ensures small { number < 2 ^ 64 → result ≤ 2 ^ 61 + 7 }
{
    let power = POWER as u128;
    (number % power) as u64 + (number / power) as u64
}

impl Hasher for SeededHasher {
    ghost use Rattle.brl_pairs.specs.Seed.{after_write};

    ghost write = { after_write };

    ghost finish = { λ hasher. hasher.state };

    #[inline(always)]
    fn finish(&self) -> u64 {
        self.state
    }

    fn write(&mut self, bytes: &[u8]) {
        if bytes.len() <= 8 {
            self.add(number_of(bytes));
            return;
        }
        for byte in bytes {
            self.add(*byte as u64);
        }
    }

    #[inline(always)]
    fn write_u8(&mut self, i: u8) {
        self.add(i as u64);
    }

    #[inline(always)]
    fn write_u32(&mut self, i: u32) {
        self.add(i as u64);
    }

    #[inline(always)]
    fn write_u64(&mut self, i: u64) {
        self.add(i);
    }

    #[inline(always)]
    fn write_usize(&mut self, i: usize) {
        self.add(i as u64);
    }
}
