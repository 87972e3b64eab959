//! Registers.

ghost use Rattle.std.specs.Prelude.{◌≡◌, ◌<◌};
ghost use Rattle.asm_text.specs.InsnParsing.{register_at, fixed_register};
ghost use Rattle.asm_text.specs.Inside.Views.{Yields};

use crate::fault::LineFlaw;
use alpha_words::Reg;
use text_tokens::register;

/// Returns the register that the lexeme names. Errors: `Register` if it names none.
pub fn register_at(lexeme: &[u8]) -> Result<Reg, LineFlaw>
    ensures { Yields (λ r. r) (register_at lexeme.now) result }
{
    match register(lexeme) {
        Some(number) => Ok(Reg::new(u32::from(number))),
        None => Err(LineFlaw::Register),
    }
}

/// Returns `number` if the lexeme names this register. Errors: `Register` if it doesn't.
pub fn fixed_register(number: u32, lexeme: &[u8]) -> Result<u32, LineFlaw>
    ensures { Yields (λ r. r) (fixed_register number lexeme.now) result }
{
    let reg = register_at(lexeme)?;
    if reg.number() == number {
        Ok(number)
    } else {
        Err(LineFlaw::Register)
    }
}
