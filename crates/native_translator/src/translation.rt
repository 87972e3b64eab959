//! The translation of code.

ghost use Rattle.std.specs.Prelude.{◌<◌, ◌^◌, length, IfOk};
ghost use Rattle.native_translator.specs.Translation.{IsTranslation};

use crate::choosing::choose;
use crate::plan::Plan;
use alpha_cfg::Code;
use native_code::layout_laws;
use native_lives::right_certificate;
use std::alloc::{AllocError, Global};

/// Translates code into the bytes of a function, fewer than 2^30. If `metered` is true, it counts
/// fuel. Errors: out of memory.
pub fn translate(alloc: Global, code: &Code, metered: bool) -> Result<Vec<u8>, AllocError>
    ensures exact { IfOk result (λ bytes. IsTranslation metered code.now bytes.items) }
    ensures short { IfOk result (λ bytes. length bytes.items < 2 ^ 30) }
{
    let _count = code.count(); // tells the prover that it is code
    layout_laws();
    let lives = right_certificate(alloc, code)?;
    let plan = Plan {
        places: choose(code, &lives),
        lives,
        metered,
    };
    plan.places.laws();
    let layout = plan.layout(alloc, code)?;
    let bytes = layout.bytes(alloc)?;
    Ok(bytes)
}
