//! The operand forms of mnemonics.

ghost use Rattle.std.specs.Prelude.{◌≡◌};
ghost use Rattle.asm_text.specs.Mnemonics.{mnemonic_of};
ghost use Rattle.view_source_faults.specs.WrongOperands.{mnemonic_form};

use asm_text::{Mnemonic, mnemonic_named};
use word_ops::Profile;

/// The form of a mnemonic's operands.
#[derive(Clone, Copy, Debug, PartialEq, Eq)]
pub enum OperandForm {
    /// `ra,disp(rb)` or `ra,(rb)`.
    Memory,
    /// `ra,rb,rc`.
    Operate,
    /// `ra,label`.
    Branch,
    /// `label` or `$31,label`.
    Br,
    /// No operand, or `$31,($26),n`.
    Return,
    /// No operand.
    Nothing,
}

/// Returns the form of the operands of the profile's mnemonic that `lexeme` is.
pub fn operand_form(profile: Profile, lexeme: &[u8]) -> OperandForm
    ensures { result ≡ mnemonic_form (mnemonic_of profile lexeme.now) }
{
    let Some(mnemonic) = mnemonic_named(lexeme, profile) else {
        return OperandForm::Nothing;
    };
    match mnemonic {
        Mnemonic::Memory(_) => OperandForm::Memory,
        Mnemonic::Oper(_) => OperandForm::Operate,
        Mnemonic::Branch(_) => OperandForm::Branch,
        Mnemonic::Br => OperandForm::Br,
        Mnemonic::Ret => OperandForm::Return,
        Mnemonic::Nop => OperandForm::Nothing,
    }
}
