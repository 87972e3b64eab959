//! The texts of code's instructions.

ghost use Rattle.std.specs.Prelude.{◌≡◌, ◌<◌, ◌^◌, length, slice_get, Some, OnOk, IfOk};
ghost use Rattle.alpha_words.specs.Lawful.{target_of};
ghost use Rattle.alpha_cfg.specs.Flow.{InsideOf};
ghost use Rattle.asm_print.specs.Printing.{insn_text};
ghost use Rattle.view_trace.specs.Texts.{code_texts};

use alpha_cfg::Code;
use alpha_words::Insn;
use asm_print::{insn_laws, push_insn};
use std::alloc::{AllocError, Global};
use std::marker::Model;

/// The texts of all instructions of code, made once. Contracts see the list of them.
#[derive(Drop)]
pub struct Texts {
    texts: Vec<Vec<u8>>,
}

impl Model for Texts {
    ghost use Rattle.std.specs.Prelude.{ℕ, List, map};

    ghost Value = { List (List ℕ) };

    ghost view = { λ t. map (λ text. text.items) t.texts.items };
}

/// The text of the instruction at an index.
fn text_of(alloc: Global, index: u32, insn: Insn) -> Result<Vec<u8>, AllocError>
    requires { InsideOf (2 ^ 32) (target_of index insn) }
    ensures { IfOk result (λ text. text.items ≡ insn_text index insn) }
{
    let mut text = Vec::new(alloc);
    push_insn(&mut text, index, insn)?;
    Ok(text)
}

impl Texts {
    /// Creates the texts of the code's instructions, each at the index of its instruction.
    ///
    /// Errors: out of memory.
    pub fn of(alloc: Global, code: &Code) -> Result<Texts, AllocError>
        ensures { IfOk result (λ texts. texts ≡ code_texts code.now) }
    {
        insn_laws(); // tells the prover that code can be spelled
        let mut texts = Vec::new(alloc);
        for i in 0..code.count() {
            let insn = code.insn(i);
            let text = text_of(alloc, i, insn)?;
            texts.push(text)?;
        }
        Ok(Texts { texts })
    }

    /// Returns the text of the instruction at index `i`.
    pub fn text(&self, i: u32) -> &[u8]
        requires { i < length self.now }
        ensures { slice_get self.now i ≡ Some result.now }
    {
        &self.texts[i as usize]
    }
}
