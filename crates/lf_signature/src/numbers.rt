//! The numbers by which terms and types name constants, families and relations, and the layout of
//! the signature: where operators, relations and rules begin and end.
//!
//! A relation has two numbers: its constant, which terms use, and its place in `Rel`, by which
//! facts and denials name it. The numbers of operators are in word_ops' table of operators. Every
//! crate goes by the names here.

ghost use Rattle.std.specs.Prelude.{◌≡◌};
ghost use Rattle.lf_signature.specs.Numbers.{rel_of, rel_number};
ghost use Rattle.lf_signature.specs.Numbers.{rel_constant};
ghost use Rattle.lf_signature.specs.Numbers.{rel_of_constant};

use word_ops::Rel;

/// The family of expressions.
pub const EXP: u32 = 0;

/// The family of memories.
pub const MEM: u32 = 1;

/// The family of formulas.
pub const FORM: u32 = 2;

/// The family of the proofs of a formula.
pub const PF: u32 = 3;

/// The constant of `sel`: the word of a memory at an address.
pub const SEL: u32 = 11;

/// The constant of `upd`: a memory with a word written to an address.
pub const UPD: u32 = 12;

/// The constant of truth.
pub const TT: u32 = 13;

/// The constant of falsity.
pub const FF: u32 = 14;

/// The constant of equality.
pub const EQ: u32 = 15;

/// The constant of the relation "unsigned less than".
pub const ULT: u32 = 16;

/// The constant of the relation "unsigned at most".
pub const ULE: u32 = 17;

/// The constant of the relation "signed less than".
pub const SLT: u32 = 18;

/// The constant of the relation "signed at most".
pub const SLE: u32 = 19;

/// The constant of `rd`: an address is readable.
pub const RD: u32 = 20;

/// The constant of `wr`: an address is writable.
pub const WR: u32 = 21;

/// The constant of conjunction.
pub const AND: u32 = 22;

/// The constant of disjunction.
pub const OR: u32 = 23;

/// The constant of implication.
pub const IMP: u32 = 24;

/// The constant of universal quantification over words.
pub const ALL: u32 = 25;

/// The constant of universal quantification over memories.
pub const ALLM: u32 = 26;

/// The constant of bitwise exclusive or.
pub const XOR: u32 = 88;

/// The constant of bitwise and with the complement of the second operand.
pub const BIC: u32 = 89;

/// The constant of four times the first operand plus the second.
pub const S4ADD: u32 = 90;

/// The constant of eight times the first operand plus the second.
pub const S8ADD: u32 = 91;

/// The constant of arithmetic shifts to the right.
pub const SRA: u32 = 92;

/// The constant that extracts a byte of a word.
pub const EXTB: u32 = 93;

/// The constant that extracts two bytes of a word.
pub const EXTW: u32 = 94;

/// The constant that extracts four bytes of a word.
pub const EXTL: u32 = 95;

/// The first constant that is a rule; the lower ones are symbols, which formulas are made of.
pub const FIRST_RULE: u32 = 27;

/// How many rules there are before the later operators.
pub const FIRST_RULES: u32 = 61;

/// The first rule after the constants of the later operators.
pub const LATER_RULE: u32 = 96;

/// How many constants are symbols, which formulas are made of.
pub const SYMBOLS: u32 = 35;

/// How many numbered constants there are.
pub const COUNT: u32 = 105;

/// Truth holds.
pub const TT_I: u32 = 27;

/// From falsity follows any formula.
pub const FF_E: u32 = 28;

/// Conjunction, introduced: proofs of both sides prove it.
pub const AND_I: u32 = 29;

/// A conjunction proves its left side.
pub const AND_L: u32 = 30;

/// A conjunction proves its right side.
pub const AND_R: u32 = 31;

/// The left side proves a disjunction.
pub const OR_L: u32 = 32;

/// The right side proves a disjunction.
pub const OR_R: u32 = 33;

/// A disjunction proves what follows from either side (proof by cases).
pub const OR_E: u32 = 34;

/// Implication, introduced: from a proof of the conclusion under the hypothesis.
pub const IMP_I: u32 = 35;

/// Modus ponens: an implication and its hypothesis prove its conclusion.
pub const IMP_E: u32 = 36;

/// Excluded middle: a formula or its denial.
pub const EM: u32 = 37;

/// A formula that is proved of an arbitrary word holds of all words.
pub const ALL_I: u32 = 38;

/// A formula that holds of all words holds of a given word.
pub const ALL_E: u32 = 39;

/// A formula that is proved of an arbitrary memory holds of all memories.
pub const ALLM_I: u32 = 40;

/// A formula that holds of all memories holds of a given memory.
pub const ALLM_E: u32 = 41;

/// A word equals itself.
pub const EQ_REFL: u32 = 42;

/// A formula that holds of a word holds of an equal word.
pub const EQ_SUB: u32 = 43;

/// A word that was written is read back.
pub const SEL_SAME: u32 = 44;

/// A write leaves the words at other addresses.
pub const SEL_OTHER: u32 = 45;

/// Sums commute.
pub const ADD_COMM: u32 = 46;

/// Sums associate.
pub const ADD_ASSOC: u32 = 47;

/// 0 adds nothing.
pub const ADD_ZERO: u32 = 48;

/// Subtracting a word and adding it again changes nothing.
pub const SUB_ADD: u32 = 49;

/// A difference is a sum with the negated word.
pub const SUB_NEG: u32 = 50;

/// Bitwise and commutes.
pub const AND_COMM: u32 = 51;

/// Bitwise and associates.
pub const AND_ASSOC: u32 = 52;

/// Bitwise and with 0 is 0.
pub const AND_ZERO: u32 = 53;

/// Bitwise and is at most its right side.
pub const AND_LE: u32 = 54;

/// Bitwise or with 0 on the right.
pub const BIS_ZERO: u32 = 55;

/// Bitwise or with 0 on the left.
pub const BIS_ZERO_L: u32 = 56;

/// The sum of two multiples of 8 is one.
pub const ADD_AL: u32 = 57;

/// A word shifted left by 3 is a multiple of 8.
pub const SLL_AL: u32 = 58;

/// Right shifts keep the order.
pub const SRL_MONO: u32 = 59;

/// Left shifts keep the order if no bit is lost.
pub const SLL_MONO: u32 = 60;

/// 0 is least.
pub const ZERO_LE: u32 = 61;

/// MAX, 2^64 - 1, is greatest.
pub const MAX_LE: u32 = 62;

/// A word is at most itself.
pub const ULE_REFL: u32 = 63;

/// "At most" is transitive.
pub const ULE_TRANS: u32 = 64;

/// A word that is less than another is at most the other.
pub const ULT_ULE: u32 = 65;

/// If a word is less than a second and the second at most a third, the first is less than the
/// third.
pub const LT_LE: u32 = 66;

/// If a word is at most a second and the second less than a third, the first is less than the
/// third.
pub const LE_LT: u32 = 67;

/// A word that is less than another is at most the other minus 1.
pub const LT_PRED: u32 = 68;

/// Two words that are at most each other are equal.
pub const LE_ANTI: u32 = 69;

/// A word that isn't less than another is at least the other.
pub const NOT_LT: u32 = 70;

/// No word is less than itself.
pub const LT_IRR: u32 = 71;

/// Sums keep the order if the greater one doesn't wrap.
pub const ADD_LE: u32 = 72;

/// If a compare instruction's result isn't 0, its relation holds. Number of the first operator's
/// rule.
pub const CMP_YES: u32 = 73;

/// If a compare instruction's result is 0, its relation doesn't hold. Number of the first
/// operator's rule.
pub const CMP_NO: u32 = 78;

/// A compare instruction's result is at most 1. Number of the first operator's rule.
pub const CMP_LE1: u32 = 83;

/// Exclusive or of a word with itself is 0.
pub const XOR_SELF: u32 = 96;

/// A word with some bits cleared is at most the word.
pub const BIC_LE: u32 = 97;

/// Four times a word plus another is the sum of the word shifted by 2 and the other.
pub const S4_DEF: u32 = 98;

/// Eight times a word plus another is the sum of the word shifted by 3 and the other.
pub const S8_DEF: u32 = 99;

/// A byte of a word is at most 255.
pub const EXTB_LE: u32 = 100;

/// Two bytes of a word are at most 65,535.
pub const EXTW_LE: u32 = 101;

/// Four bytes of a word are at most 4,294,967,295.
pub const EXTL_LE: u32 = 102;

/// A word with another's bits cleared is its bitwise and with the other's complement.
pub const BIC_DEF: u32 = 103;

/// Subtracting a word keeps the order if the lesser difference doesn't wrap.
pub const SUB_LO: u32 = 104;

/// Returns the relation that facts and denials name by `number`, its place in `Rel`: None past 4.
pub fn rel_of(number: u32) -> Option<Rel>
    ensures { result ≡ rel_of number }
{
    match number {
        0 => Some(Rel::Eq),
        1 => Some(Rel::Ult),
        2 => Some(Rel::Ule),
        3 => Some(Rel::Slt),
        4 => Some(Rel::Sle),
        _ => None,
    }
}

/// Returns the number by which facts and denials name a relation: its place in `Rel`, 0 to 4.
pub fn rel_number(rel: Rel) -> u32
    ensures { result ≡ rel_number rel }
{
    match rel {
        Rel::Eq => 0,
        Rel::Ult => 1,
        Rel::Ule => 2,
        Rel::Slt => 3,
        Rel::Sle => 4,
    }
}

/// Returns the constant of a relation in terms.
pub fn rel_constant(rel: Rel) -> u32
    ensures { result ≡ rel_constant rel }
{
    match rel {
        Rel::Eq => EQ,
        Rel::Ult => ULT,
        Rel::Ule => ULE,
        Rel::Slt => SLT,
        Rel::Sle => SLE,
    }
}

/// Returns the relation whose constant in terms is `constant`: None if no relation has it.
pub fn rel_of_constant(constant: u32) -> Option<Rel>
    ensures { result ≡ rel_of_constant constant }
{
    rel_of(constant.checked_sub(EQ)?)
}
