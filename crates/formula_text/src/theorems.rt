//! Theorems about the definitions, with nothing to run.

ghost use Rattle.std.specs.Prelude.{◌≡◌, ◌↔◌, ◌<◌, ◌^◌, ℕ, Bool, true, List, [], Ok, Err};
ghost use Rattle.word_ops.specs.declared.Profile.{Profile};
ghost use Rattle.word_ops.specs.Operators.{has_op};
ghost use Rattle.formula_tree.specs.Formulas.{Form};
ghost use Rattle.formula_tree.specs.Operators.{Uses};
ghost use Rattle.formula_tree.specs.Scope.{IsWithin};
ghost use Rattle.formula_tree.specs.Sizes.{binders};
ghost use Rattle.formula_text.specs.declared.fault.TextFlaw.{TextFlaw};
ghost use Rattle.formula_text.specs.Faults.{IsFaultPosition};
ghost use Rattle.formula_text.specs.Grammar.{Spells};
ghost use Rattle.formula_text.specs.Parsing.{parsed_form};
ghost use Rattle.formula_text.specs.Printing.{form_text};

/// Proves that the parser and the grammar agree, for each profile, with the remaining steps
/// nameable or not.
///
/// A text spells a formula exactly if it parses as that formula, so it spells at most one. All
/// variables of a spelled formula are bound, it names the remaining steps only if that is allowed,
/// and its operators are the profile's. An error is at the first token with which no formula
/// continues. The printed text of such a formula spells it.
pub fn laws()
    ensures parsed { (p : Profile) (left : Bool) (text : List ℕ) (f : Form) →
        Spells p left text f ↔ (parsed_form p left text ≡ Ok f) }
    ensures closed { (p : Profile) (left : Bool) (text : List ℕ) (f : Form) →
        Spells p left text f → IsWithin left 32 f [] }
    ensures uses { (p : Profile) (left : Bool) (text : List ℕ) (f : Form) →
        Spells p left text f → Uses (λ o. has_op p o ≡ true) f }
    ensures fault { (p : Profile) (left : Bool) (text : List ℕ) (at : ℕ) (flaw : TextFlaw) →
        parsed_form p left text ≡ Err (at, flaw) → IsFaultPosition p left text at }
    ensures printed { (p : Profile) (left : Bool) (f : Form) →
        IsWithin left 32 f [] → Uses (λ o. has_op p o ≡ true) f → binders f < 2 ^ 64 →
        Spells p left (form_text 0 f) f }
{}
