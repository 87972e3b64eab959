//! Registers.

ghost use Rattle.std.specs.Prelude.{◌≡◌, ◌<◌, not, ◌==◌, ◌%◌};

use std::marker::Model;

/// A general-purpose register, by the processor's number: rax, rcx, rdx, rbx, rsp, rbp, rsi, rdi
/// are 0 to 7, and r8 to r15 are 8 to 15.
#[derive(Clone, Copy, Debug, PartialEq, Eq)]
pub struct X86Reg {
    number: u8,
}

impl Model for X86Reg {
    ghost use Rattle.std.specs.Prelude.{ℕ, ◌<◌};

    ghost Value = { ℕ };

    ghost view = { λ r. r.number };

    ghost invariant = { λ r. r.number < 16 };

    ghost inverse = { λ n. record { number = n } };
}

impl X86Reg {
    /// Creates the register with this number, which must be below 16.
    pub fn new(number: u8) -> X86Reg
        requires { number < 16 }
        ensures { result ≡ number }
    {
        X86Reg { number }
    }

    /// Returns the register's number, 0 to 15.
    pub fn number(self) -> u8
        ensures value { result ≡ self }
        ensures below { result < 16 }
    {
        self.number
    }

    /// Checks whether the register may be the base of an address. The numbers of rsp and r12 end in
    /// the bits 100; as a base they would need a SIB byte.
    pub fn is_base(self) -> bool
        ensures { result ≡ not (self % 8 == 4) }
    {
        self.number % 8 != 4
    }
}
