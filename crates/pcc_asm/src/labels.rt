//! Labels with fast lookup.

ghost use Rattle.std.specs.Prelude.{◌≡◌, ◌≤◌, IfOk, IfSome};
ghost use Rattle.asm_text.specs.declared.limits.TheConstants.{MAX_INSNS};
ghost use Rattle.pcc_asm.specs.Assembling.{label_index};
ghost use Rattle.pcc_asm.specs.Inside.Views.{label_views, AreLabelIndices, AreIndexed};

use asm_text::Label;
use std::alloc::{AllocError, Global};
use std::collections::BTreeMap;

/// The labels of a source, each found in logarithmic time.
#[derive(Drop)]
pub struct Labels<'s> {
    /// The labels in order. Only the clauses read them.
    pub list: &'s [(Label, u32)],
    /// The index that each label's text names.
    pub places: BTreeMap<&'s [u8], u32>,
}

/// Builds the lookup table of the labels. Errors: out of memory.
#[tactic(auto, using(crate::proofs::Labelled::none_indexed, crate::proofs::Labelled::all_indexed))]
pub fn index_labels<'s>(alloc: Global, list: &'s [(Label, u32)]) -> Result<Labels<'s>, AllocError>
    requires short { AreLabelIndices list.now }
    ensures indexed { IfOk result (λ labels. AreIndexed labels) }
    ensures list { IfOk result (λ labels. labels.list.now ≡ list.now) }
{
    let mut places = BTreeMap::new(alloc);
    for i in 0..list.len() {
        // from the last on: of equal labels the first would stay, as in the definition
        let (label, index) = &list[list.len() - 1 - i];
        places.insert(label.text.as_slice(), *index)?;
    }
    Ok(Labels { list, places })
}

impl Labels<'_> {
    /// Returns the index that a label names, or None if the label is undefined.
    pub fn index(&self, name: &[u8]) -> Option<u32>
        requires { AreIndexed self.now }
        ensures value { result ≡ label_index (label_views self.now.list.now) name.now }
        ensures short { IfSome result (λ i. i ≤ MAX_INSNS) }
    {
        match self.places.get(name) {
            Some(index) => Some(*index),
            None => None,
        }
    }
}
