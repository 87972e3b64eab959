//! Parsing a formula, with the place of its fault.

ghost use Rattle.std.specs.Prelude.{IfErr};
ghost use Rattle.formula_tree.specs.Views.{form_view};
ghost use Rattle.formula_text.specs.Answers.{Parses};
ghost use Rattle.formula_text.specs.Parsing.{parsed_form};
ghost use Rattle.view_faults.specs.Views.{IsInText};

use formula_text::{TextFault, read_form};
use formula_tree::Form;
use std::alloc::Global;
use word_ops::Profile;

/// Parses the text as a formula over the operators of the profile; `left` says whether it may name
/// the remaining steps.
///
/// Errors: the first fault, whose place lies in the text or at its end, or out of memory.
#[tactic(auto, using(crate::proofs::Places::fault_within))]
pub fn form_in(alloc: Global, text: &[u8], profile: Profile, left: bool) -> Result<Form, TextFault>
    ensures exact { Parses form_view (parsed_form profile left text.now) result }
    ensures within { IfErr result (IsInText text.now) }
{
    match read_form(alloc, text, profile, left) {
        Ok(form) => Ok(form),
        Err(TextFault::At(at, flaw)) => Err(TextFault::At(at, flaw)),
        Err(TextFault::Memory) => Err(TextFault::Memory),
    }
}
