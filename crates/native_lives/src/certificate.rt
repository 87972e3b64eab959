//! What a certificate has, and how one is found.

ghost use Rattle.std.specs.Prelude.{◌≡◌, length, IfOk};
ghost use Rattle.native_code.specs.Lives.{IsLean, form_at};
ghost use Rattle.native_lives.specs.Certificates.{lean_of, live_at};

use crate::sweeps::found;
use alpha_cfg::Code;
use native_code::Form;
use std::alloc::{AllocError, Global};

/// The form of each index, and the registers that are live there, a bit for each.
#[derive(Drop)]
pub struct Certificate {
    pub forms: Vec<Form>,
    pub live: Vec<u32>,
}

impl Certificate {
    /// Returns the form of an index. Past the last form, instructions are done whole.
    pub fn form(&self, i: u32) -> Form
        ensures { result ≡ form_at (lean_of self.now.forms.items self.now.live.items) i }
    {
        match self.forms.get(i as usize) {
            Some(form) => *form,
            None => Form::Whole,
        }
    }

    /// Checks whether a register is live at an index. Past the last word all are.
    pub fn is_live(&self, i: u32, r: u32) -> bool
        ensures { result ≡ live_at self.now.live.items i r }
    {
        if r >= 31 {
            return false;
        }
        match self.live.get(i as usize) {
            Some(word) => (*word >> r) % 2 == 1,
            None => true,
        }
    }
}

/// Returns the certificate that leaves nothing out.
fn whole(alloc: Global, code: &Code) -> Certificate
    ensures { IsLean (lean_of result.forms.items result.live.items) code.now }
{
    let _count = code.count(); // tells the prover that it is code
    Certificate {
        forms: Vec::new(alloc),
        live: Vec::new(alloc),
    }
}

/// Returns a right certificate of the code. Errors: out of memory.
pub fn right_certificate(alloc: Global, code: &Code) -> Result<Certificate, AllocError>
    ensures right { IfOk result (λ c. IsLean (lean_of c.forms.items c.live.items) code.now) }
{
    let lives = found(alloc, code)?;
    if lives.is_right(code) {
        Ok(lives)
    } else {
        Ok(whole(alloc, code))
    }
}
