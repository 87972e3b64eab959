//! Policies with their formulas.

ghost use Rattle.std.specs.Prelude.{◌≡◌, IfOk};
ghost use Rattle.formula_tree.specs.Views.{form_view};
ghost use Rattle.policy_set.specs.Names.{kind_of, policy_of, policy_number, is_number_of};
ghost use Rattle.policy_set.specs.Views.{built_in, IsPolicyForm, IsPolicy};
ghost use Rattle.policy_set.specs.PolicyText.{from_file};

use crate::formulas::{post, pre};
use crate::kind::PolicyKind;
use formula_tree::Form;
use std::alloc::{AllocError, Global};
use std::marker::Model;

/// A policy: its precondition and its postcondition. Contracts see both formulas, and the policy's
/// kind, which a policy from a file hasn't. The formulas are boxed, so that dropping a policy frees
/// two boxes there, and not each kind of part that a formula has.
#[derive(Drop)]
pub struct Policy {
    kind: Option<PolicyKind>,
    pre: Box<Form>,
    post: Box<Form>,
}

impl Model for Policy {
    ghost use Rattle.policy_set.specs.Views.{PolicyView, IsPolicy};

    ghost Value = { PolicyView };

    ghost use Rattle.std.specs.Coded.{codes};
    ghost use Rattle.policy_set.specs.Inside.Code.{form_code};

    ghost coded = { Prim.hlevel (codes, form_code) };

    ghost use Rattle.policy_set.specs.Inside.Held.{policy_view};

    ghost view = { λ p. policy_view p.kind p.pre p.post };

    ghost invariant = { λ p. IsPolicy (policy_view p.kind p.pre p.post) };
}

/// Boxes the formula. Errors: out of memory.
fn boxed(alloc: Global, form: Form) -> Result<Box<Form>, AllocError>
    ensures { IfOk result (λ b. b.value ≡ form) }
{
    let b = Box::new(alloc, form)?;
    Ok(b)
}

/// Copies the formula into a box of its own. Errors: out of memory.
fn copied(alloc: Global, form: &Form) -> Result<Box<Form>, AllocError>
    ensures { IfOk result (λ b. form_view b.value ≡ form_view form.now) }
{
    let copy = form.copy(alloc)?;
    boxed(alloc, copy)
}

impl Policy {
    /// Creates the built-in policy of this kind. Errors: out of memory.
    pub fn of(alloc: Global, kind: PolicyKind) -> Result<Policy, AllocError>
        ensures exact { IfOk result (λ policy. policy ≡ built_in kind) }
    {
        let form = pre(alloc, kind)?;
        let asked = boxed(alloc, form)?;
        let promised = boxed(alloc, post(kind))?;
        Ok(Policy {
            kind: Some(kind),
            pre: asked,
            post: promised,
        })
    }

    /// Creates the policy with two formulas from a file, which has no kind. Errors: out of memory.
    pub fn from_file(alloc: Global, pre: Form, post: Form) -> Result<Policy, AllocError>
        requires asked { IsPolicyForm (form_view pre) }
        requires promised { IsPolicyForm (form_view post) }
        ensures exact { IfOk result
            (λ policy. policy ≡ from_file (form_view pre) (form_view post)) }
    {
        let asked = boxed(alloc, pre);
        let promised = boxed(alloc, post)?;
        Ok(Policy {
            kind: None,
            pre: asked?,
            post: promised,
        })
    }

    /// Returns the policy's kind, or None if it is from a file.
    pub fn kind(&self) -> Option<PolicyKind>
        ensures exact { result ≡ self.now.kind }
    {
        self.kind
    }

    /// Returns the number that containers carry: 1 for `filter`, 2 for `tag`, 3 for `table`.
    /// Returns 0 for a policy from a file; no container is for such a policy by its number
    /// (`has_number`).
    pub fn number(&self) -> u32
        ensures exact { result ≡ policy_number self.now }
    {
        match self.kind {
            Some(kind) => kind.number(),
            None => 0,
        }
    }

    /// Checks whether containers with this number are for the policy: it has a kind with this
    /// number.
    pub fn has_number(&self, number: u32) -> bool
        ensures exact { result ≡ is_number_of self.now number }
    {
        match self.kind {
            Some(kind) => number == kind.number(),
            None => false,
        }
    }

    /// Returns the precondition: what holds before code starts.
    pub fn pre(&self) -> &Form
        ensures exact { form_view result.now ≡ self.now.pre }
    {
        &self.pre
    }

    /// Returns the postcondition: what holds after code has returned.
    pub fn post(&self) -> &Form
        ensures exact { form_view result.now ≡ self.now.post }
    {
        &self.post
    }

    /// Copies the policy. Errors: out of memory.
    pub fn copy(&self, alloc: Global) -> Result<Policy, AllocError>
        ensures exact { IfOk result (λ policy. policy ≡ self.now) }
    {
        let asked = copied(alloc, &self.pre)?;
        let promised = copied(alloc, &self.post)?;
        Ok(Policy {
            kind: self.kind,
            pre: asked,
            post: promised,
        })
    }

    /// Proves what holds for every policy, with nothing to run: its formulas name only registers, m
    /// and their own bound variables, they are at most `MAX_FORM_HEIGHT` high, and if the policy
    /// has a kind they are the kind's.
    pub fn laws(&self)
        ensures { IsPolicy self.now }
    {
        let _ = &self.pre; // opens the invariant for the prover
    }
}

/// Returns the kind of policy with this name, or None.
fn kind_named(name: &str) -> Option<PolicyKind>
    ensures { result ≡ kind_of name.now }
{
    PolicyKind::named(name.as_bytes())
}

/// Returns the built-in policy with this name, or None exactly if the name is none of `filter`,
/// `tag` and `table`. Errors: out of memory.
pub fn by_name(alloc: Global, name: &str) -> Result<Option<Policy>, AllocError>
    ensures exact { IfOk result (λ found. found ≡ policy_of name.now) }
{
    match kind_named(name) {
        Some(kind) => Ok(Some(Policy::of(alloc, kind)?)),
        None => Ok(None),
    }
}
