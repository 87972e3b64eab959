//! Fields: little-endian numbers of four bytes, read from front to back.

ghost use Rattle.std.specs.Prelude.{◌≡◌, ◌+◌, ◌*◌, ◌≤◌, IfOk, OnOk, length};

use crate::fault::{Flaw, Malformed};
use byteorder::{ByteOrder, LittleEndian};

/// The magic number: the bytes `PCCA`.
pub const MAGIC: u32 = 0x4143_4350;

/// A cursor over the fields of some bytes.
#[derive(Drop)]
pub struct Fields<'b> {
    bytes: &'b [u8],
    read: usize,
    ghost within: { 4 * read ≤ length bytes.now },
}

impl<'b> Fields<'b> {
    ghost use Rattle.proof_container.specs.Decoding.{field_at, exact_at, between_at};
    ghost use Rattle.proof_container.specs.Decoding.{raw_at, word_at, triple_at};
    ghost use Rattle.proof_container.specs.Views.{Decodes};
    ghost use Rattle.proof_container.specs.Inside.Cursor.{IsPast};

    /// Returns a cursor at the first field of `bytes`.
    pub fn new(bytes: &'b [u8]) -> Fields<'b>
        ensures bytes { result.bytes.now ≡ bytes.now }
        ensures first { result.read ≡ 0 }
    {
        Fields { bytes, read: 0 }
    }

    /// Returns how many fields were read.
    pub fn place(&self) -> usize
        ensures { result ≡ self.now.read }
    {
        self.read
    }

    /// Returns the byte offset of the next field.
    pub fn offset(&self) -> u64
        ensures { result ≡ 4 * self.now.read }
    {
        4 * self.read as u64
    }

    /// Returns how many bytes are left to read.
    pub fn remaining(&self) -> usize
        ensures { 4 * self.now.read + result ≡ length self.now.bytes.now }
    {
        self.bytes.len() - 4 * self.read
    }

    /// Reads the next field.
    pub fn field(&mut self) -> Result<u32, Malformed>
        ensures read { Decodes (λ n. n) (field_at self.old.bytes.now self.old.read) result }
        ensures moves { OnOk result (IsPast self.old self.new 1) }
    {
        let rest = &self.bytes[4 * self.read..];
        if rest.len() < 4 {
            return Err(Malformed::At(self.offset(), Flaw::Cut));
        }
        self.read += 1;
        Ok(LittleEndian::read_u32(rest))
    }

    /// Reads the next field, which has to equal `n`; else `flaw` is the error.
    pub fn exact(&mut self, n: u32, flaw: Flaw) -> Result<u32, Malformed>
        ensures read { Decodes (λ n. n) (exact_at self.old.bytes.now self.old.read n flaw) result }
        ensures moves { OnOk result (IsPast self.old self.new 1) }
    {
        let offset = self.offset();
        let found = self.field()?;
        if found == n {
            Ok(found)
        } else {
            Err(Malformed::At(offset, flaw))
        }
    }

    /// Reads the next field, which has to be from `low` to `high`; else `flaw` is the error.
    pub fn between(&mut self, low: u32, high: u32, flaw: Flaw) -> Result<u32, Malformed>
        ensures read { Decodes (λ n. n)
            (between_at self.old.bytes.now self.old.read low high flaw) result }
        ensures moves { OnOk result (IsPast self.old self.new 1) }
        ensures low { IfOk result (λ n. low ≤ n) }
        ensures high { IfOk result (λ n. n ≤ high) }
    {
        let offset = self.offset();
        let found = self.field()?;
        if found < low || found > high {
            Err(Malformed::At(offset, flaw))
        } else {
            Ok(found)
        }
    }

    /// Reads the next `count` fields and returns their bytes.
    #[tactic(auto, unfolding(crate::specs::Decoding::raw_at))]
    pub fn raw(&mut self, count: usize) -> Result<&'b [u8], Malformed>
        ensures read { Decodes (λ raw. raw.now) (raw_at self.old.bytes.now self.old.read count)
            result }
        ensures moves { OnOk result (IsPast self.old self.new count) }
        ensures size { IfOk result (λ raw. length raw.now ≡ 4 * count) }
    {
        let whole = self.remaining() / 4;
        if whole < count {
            return Err(Malformed::At(self.offset() + 4 * whole as u64, Flaw::Cut));
        }
        let first = 4 * self.read;
        self.read += count;
        Ok(&self.bytes[first..4 * self.read])
    }

    /// Reads a 64-bit word from the next two fields, the low half first.
    pub fn word(&mut self) -> Result<u64, Malformed>
        ensures read { Decodes (λ w. w) (word_at self.old.bytes.now self.old.read) result }
        ensures moves { OnOk result (IsPast self.old self.new 2) }
    {
        let low = self.field()?;
        let high = self.field()?;
        Ok(u64::from(low) + 4_294_967_296 * u64::from(high))
    }

    /// Reads a number from the next field and two words from the four fields after it.
    pub fn triple(&mut self) -> Result<(u32, u64, u64), Malformed>
        ensures read { Decodes (λ t. (t.0, t.1, t.2))
            (triple_at self.old.bytes.now self.old.read) result }
        ensures moves { OnOk result (IsPast self.old self.new 5) }
    {
        let n = self.field()?;
        let a = self.word()?;
        let b = self.word()?;
        Ok((n, a, b))
    }
}
