//! The bytes of one instruction.

ghost use Rattle.std.specs.Prelude.{◌≡◌, [], ◌∷◌};

use std::marker::Model;

/// The maximal length of an instruction in bytes.
pub const MAX_LENGTH: usize = 10;

/// Up to ten bytes.
#[derive(Drop)]
pub struct InsnBytes {
    bytes: [u8; MAX_LENGTH],
    count: usize,
}

impl Model for InsnBytes {
    ghost use Rattle.std.specs.Prelude.{ℕ, ◌≤◌, List, take};

    ghost Value = { List ℕ };

    ghost view = { λ b. take b.count b.bytes };

    ghost invariant = { λ b. b.count ≤ 10 };
}

impl InsnBytes {
    /// Returns the bytes.
    pub fn as_slice(&self) -> &[u8]
        ensures { result.now ≡ self.now }
    {
        &self.bytes[..self.count]
    }

    /// Creates one byte.
    pub fn one(a: u8) -> InsnBytes
        ensures { result ≡ a ∷ [] }
    {
        InsnBytes {
            bytes: [a, 0, 0, 0, 0, 0, 0, 0, 0, 0],
            count: 1,
        }
    }

    /// Creates three bytes.
    pub fn three(a: u8, b: u8, c: u8) -> InsnBytes
        ensures { result ≡ a ∷ b ∷ c ∷ [] }
    {
        InsnBytes {
            bytes: [a, b, c, 0, 0, 0, 0, 0, 0, 0],
            count: 3,
        }
    }

    /// Creates four bytes.
    pub fn four(a: u8, b: u8, c: u8, d: u8) -> InsnBytes
        ensures { result ≡ a ∷ b ∷ c ∷ d ∷ [] }
    {
        InsnBytes {
            bytes: [a, b, c, d, 0, 0, 0, 0, 0, 0],
            count: 4,
        }
    }

    /// Creates five bytes, the last four of them a number's.
    pub fn five(a: u8, number: [u8; 4]) -> InsnBytes
        ensures { result ≡ a ∷ number }
    {
        let [b, c, d, e] = number;
        InsnBytes {
            bytes: [a, b, c, d, e, 0, 0, 0, 0, 0],
            count: 5,
        }
    }

    /// Creates six bytes, the last four of them a number's.
    pub fn six(a: u8, b: u8, number: [u8; 4]) -> InsnBytes
        ensures { result ≡ a ∷ b ∷ number }
    {
        let [c, d, e, f] = number;
        InsnBytes {
            bytes: [a, b, c, d, e, f, 0, 0, 0, 0],
            count: 6,
        }
    }

    /// Creates seven bytes, the last four of them a number's.
    pub fn seven(a: u8, b: u8, c: u8, number: [u8; 4]) -> InsnBytes
        ensures { result ≡ a ∷ b ∷ c ∷ number }
    {
        let [d, e, f, g] = number;
        InsnBytes {
            bytes: [a, b, c, d, e, f, g, 0, 0, 0],
            count: 7,
        }
    }

    /// Creates ten bytes, the last eight of them a number's.
    pub fn ten(a: u8, b: u8, number: [u8; 8]) -> InsnBytes
        ensures { result ≡ a ∷ b ∷ number }
    {
        let [c, d, e, f, g, h, i, j] = number;
        InsnBytes {
            bytes: [a, b, c, d, e, f, g, h, i, j],
            count: 10,
        }
    }
}
