//! Operators, shifts, conditions and scales, with the codes that name them in instructions.
//!
//! Each is a row here and a row in `specs/Codes`. Source: Intel 64 and IA-32 Architectures Software
//! Developer's Manual, volume 2.

ghost use Rattle.std.specs.Prelude.{◌≡◌, ◌<◌};
ghost use Rattle.x86_words.specs.Codes as codes;

/// An operator on a destination and a second operand, both words.
#[derive(Clone, Copy, Debug, PartialEq, Eq)]
pub enum AluOp {
    /// The sum, modulo 2^64.
    Add,
    /// Bitwise or.
    Or,
    /// Bitwise and.
    And,
    /// The difference, modulo 2^64.
    Sub,
    /// Bitwise exclusive or.
    Xor,
    /// The flags of the difference; the destination stays.
    Cmp,
}

/// A shift of a word.
#[derive(Clone, Copy, Debug, PartialEq, Eq)]
pub enum ShiftOp {
    /// To the left; zeros come in.
    Shl,
    /// To the right; zeros come in.
    Shr,
    /// To the right; copies of the sign bit come in.
    Sar,
}

/// A condition on the flags, as it is read after a compare of a first with a second word.
#[derive(Clone, Copy, Debug, PartialEq, Eq)]
pub enum X86Cond {
    /// `b`: less, both words read as unsigned.
    Below,
    /// `ae`: not `b`.
    AboveOrEqual,
    /// `e`: equal.
    Equal,
    /// `ne`: not `e`.
    NotEqual,
    /// `be`: less or equal, both words read as unsigned.
    BelowOrEqual,
    /// `a`: not `be`.
    Above,
    /// `s`: the result's highest bit is 1.
    Sign,
    /// `ns`: not `s`.
    NoSign,
    /// `l`: less, both words read in two's complement.
    Less,
    /// `ge`: not `l`.
    GreaterOrEqual,
    /// `le`: less or equal, both words read in two's complement.
    LessOrEqual,
    /// `g`: not `le`.
    Greater,
}

/// How often an index counts in an address.
#[derive(Clone, Copy, Debug, PartialEq, Eq)]
pub enum Scale {
    /// Once.
    One,
    /// Twice.
    Two,
    /// Four times.
    Four,
    /// Eight times.
    Eight,
}

/// All operators, in the order of their opcodes.
const ALU_OPS: [AluOp; 6] = [
    AluOp::Add,
    AluOp::Or,
    AluOp::And,
    AluOp::Sub,
    AluOp::Xor,
    AluOp::Cmp,
];

/// All shifts, in the order of their digits.
const SHIFT_OPS: [ShiftOp; 3] = [ShiftOp::Shl, ShiftOp::Shr, ShiftOp::Sar];

/// All conditions, in the order of their codes.
const X86_CONDS: [X86Cond; 12] = [
    X86Cond::Below,
    X86Cond::AboveOrEqual,
    X86Cond::Equal,
    X86Cond::NotEqual,
    X86Cond::BelowOrEqual,
    X86Cond::Above,
    X86Cond::Sign,
    X86Cond::NoSign,
    X86Cond::Less,
    X86Cond::GreaterOrEqual,
    X86Cond::LessOrEqual,
    X86Cond::Greater,
];

impl AluOp {
    /// Returns the opcode of the form whose destination is a register.
    pub fn opcode(self) -> u8
        ensures value { result ≡ codes.alu_opcode self }
        ensures below { result < 64 }
    {
        match self {
            AluOp::Add => 0x03,
            AluOp::Or => 0x0b,
            AluOp::And => 0x23,
            AluOp::Sub => 0x2b,
            AluOp::Xor => 0x33,
            AluOp::Cmp => 0x3b,
        }
    }

    /// Returns the digit, 0 to 7, that extends the opcode of the form with an immediate.
    pub fn digit(self) -> u8
        ensures value { result ≡ codes.alu_digit self }
        ensures below { result < 8 }
    {
        match self {
            AluOp::Add => 0,
            AluOp::Or => 1,
            AluOp::And => 4,
            AluOp::Sub => 5,
            AluOp::Xor => 6,
            AluOp::Cmp => 7,
        }
    }

    /// Returns the operator with this opcode, or None if none has it.
    pub fn of_opcode(opcode: u8) -> Option<AluOp>
        ensures { result ≡ codes.alu_of_opcode opcode }
    {
        ALU_OPS.iter().copied().find(|op| op.opcode() == opcode)
    }

    /// Returns the operator with this digit, or None if none has it.
    pub fn of_digit(digit: u8) -> Option<AluOp>
        ensures { result ≡ codes.alu_of_digit digit }
    {
        ALU_OPS.iter().copied().find(|op| op.digit() == digit)
    }
}

impl ShiftOp {
    /// Returns the digit, 0 to 7, that extends the opcode.
    pub fn digit(self) -> u8
        ensures value { result ≡ codes.shift_digit self }
        ensures below { result < 8 }
    {
        match self {
            ShiftOp::Shl => 4,
            ShiftOp::Shr => 5,
            ShiftOp::Sar => 7,
        }
    }

    /// Returns the shift with this digit, or None if none has it.
    pub fn of_digit(digit: u8) -> Option<ShiftOp>
        ensures { result ≡ codes.shift_of_digit digit }
    {
        SHIFT_OPS.iter().copied().find(|op| op.digit() == digit)
    }
}

impl X86Cond {
    /// Returns the condition's code, 0 to 15: the low bits of the opcode.
    pub fn code(self) -> u8
        ensures value { result ≡ codes.cond_code self }
        ensures below { result < 16 }
    {
        match self {
            X86Cond::Below => 2,
            X86Cond::AboveOrEqual => 3,
            X86Cond::Equal => 4,
            X86Cond::NotEqual => 5,
            X86Cond::BelowOrEqual => 6,
            X86Cond::Above => 7,
            X86Cond::Sign => 8,
            X86Cond::NoSign => 9,
            X86Cond::Less => 12,
            X86Cond::GreaterOrEqual => 13,
            X86Cond::LessOrEqual => 14,
            X86Cond::Greater => 15,
        }
    }

    /// Returns the condition with this code, or None if none has it.
    pub fn of_code(code: u8) -> Option<X86Cond>
        ensures { result ≡ codes.cond_of_code code }
    {
        X86_CONDS.iter().copied().find(|cond| cond.code() == code)
    }
}

impl Scale {
    /// Returns the two highest bits of a SIB byte, 0 to 3.
    pub fn bits(self) -> u8
        ensures value { result ≡ codes.scale_bits self }
        ensures below { result < 4 }
    {
        match self {
            Scale::One => 0,
            Scale::Two => 1,
            Scale::Four => 2,
            Scale::Eight => 3,
        }
    }

    /// Returns 1, 2, 4 or 8.
    pub fn factor(self) -> u64
        ensures { result ≡ codes.scale_factor self }
    {
        match self {
            Scale::One => 1,
            Scale::Two => 2,
            Scale::Four => 4,
            Scale::Eight => 8,
        }
    }

    /// Returns the scale with these two bits; any number above 2 stands for 3.
    pub fn of_bits(bits: u8) -> Scale
        ensures { result ≡ codes.scale_of_bits bits }
    {
        match bits {
            0 => Scale::One,
            1 => Scale::Two,
            2 => Scale::Four,
            _ => Scale::Eight,
        }
    }
}
