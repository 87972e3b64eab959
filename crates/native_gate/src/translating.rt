//! The translation of accepted code.

ghost use Rattle.std.specs.Prelude.{◌<◌, ◌^◌, length, IfOk};
ghost use Rattle.native_translator.specs.Translation.{IsTranslation};
ghost use Rattle.native_gate.specs.Translated.{is_metered};

use native_translator::translate;
use pcc_gate::Accepted;
use std::alloc::{AllocError, Global};

/// Translates accepted code. Fuel is counted unless the container bounds the steps. Errors: out of
/// memory.
pub fn text_of(alloc: Global, accepted: &Accepted) -> Result<Vec<u8>, AllocError>
    ensures exact { IfOk result (λ text. IsTranslation (is_metered accepted.now.bound)
        accepted.now.code text.items) }
    ensures short { IfOk result (λ text. length text.items < 2 ^ 30) }
{
    let metered = accepted.bound().is_none();
    translate(alloc, accepted.cut().code(), metered)
}
