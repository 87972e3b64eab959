//! The registers of an interpreter that tests no access, with a place for each register number.

ghost use Rattle.std.specs.Prelude.{◌≡◌, ◌<◌, slice_index};
ghost use Rattle.word_ops.specs.Registers.{read_reg, write_reg};

use alpha_words::Reg;
use std::marker::Model;

/// The words of registers 0 to 30, and a 0 in the place of register 31, so that no register number
/// is tested. Contracts see the 31 words.
#[derive(Drop)]
pub struct Slots {
    words: [u64; 32],
}

impl Model for Slots {
    ghost use Rattle.std.specs.Prelude.{ℕ, List, take};
    ghost use Rattle.host_steps.specs.Slots.{AreSlots};

    ghost Value = { List ℕ };

    ghost view = { λ s. take 31 s.words };

    ghost invariant = { λ s. AreSlots s.words };
}

impl Slots {
    ghost use Rattle.host_steps.specs.Slots.{argument_regs};

    /// Returns the registers of a start: registers 16, 17 and 18 have these words, all others are
    /// 0.
    pub fn new(r16: u64, r17: u64, r18: u64) -> Slots
        ensures { result ≡ argument_regs r16 r17 r18 }
    {
        let mut words = [0; 32];
        words[16] = r16;
        words[17] = r17;
        words[18] = r18;
        Slots { words }
    }

    /// Returns the word of register `reg`, which is 0 for register 31.
    #[inline(always)]
    pub fn read(&self, reg: Reg) -> u64
        ensures { result ≡ read_reg self.now reg }
    {
        self.words[reg.number() as usize]
    }

    /// Writes `word` to register `reg`, which must not be register 31.
    #[inline(always)]
    pub fn write(&mut self, reg: Reg, word: u64)
        requires { reg < 31 }
        ensures { self.new ≡ write_reg self.old reg word }
    {
        self.words[reg.number() as usize] = word;
    }

    /// Returns the word of register 0, which is the result of a return.
    #[inline(always)]
    pub fn result(&self) -> u64
        ensures { result ≡ slice_index self.now 0 }
    {
        self.words[0]
    }
}
