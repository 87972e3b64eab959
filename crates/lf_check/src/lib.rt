//! A bidirectional LF type checker, over any signature.
//!
//! It decides whether a term checks against a type, which type an atomic term synthesises, and
//! whether a type is well formed. The layer above uses that `check_term` returns true exactly if
//! there is a derivation that the term checks against the type in the context. Terms, types and
//! contexts may be anything whose ids are the table's. The derivations are defined in
//! `lf_signature` (`specs/Typing`). Each old id keeps its tree, also if a call runs out of memory.
//!
//! No shared term is checked twice if the variables that it uses have equal types: `Kept` caches
//! the judgements, and can be passed from call to call on one table and signature. It may have one
//! limit for all that it caches; past it a call returns `Exhausted::Results`, and without it no
//! call does. Its `memo` can be lent to other calls on the table. Source: Harper and Licata,
//! Mechanizing Metatheory in a Logical Framework, JFP 2007, section 2.
#![tactic(auto)]

mod contexts;
mod formed;
mod introductions;
mod judgements;
mod steps;
mod uses;
mod walk;

ghost use Rattle.std.specs.Prelude.{◌≡◌, ◌↔◌, IfOk, IsTrue};
ghost use Rattle.term_table.specs.Table.{IsKnown, AllKnown, tree_at, ctx_of, Extends};
ghost use Rattle.hereditary_subst.specs.Simples.{IsResult};
ghost use Rattle.lf_signature.specs.Typing.{Checks, Synth, IsType};
ghost use Rattle.hereditary_subst.specs.Limits.{SpendsResults};
ghost use Rattle.lf_check.specs.Kept.{AreKept};

use contexts::context_on;
use formed::is_type_at;
pub use hereditary_subst::{Exhausted, MOST_RESULTS};
pub use judgements::Kept;
use lf_signature::{Signature, typing_laws};
use std::alloc::{AllocError, Global};
use term_table::{Id, Table};
use walk::{check_at, synth_at};

/// Returns whether the term `m` checks against the type `a` in the context `ctx`, whose nearest
/// type is last: true exactly if there is a derivation.
///
/// Errors: out of memory alone; each id keeps its tree.
pub fn check_term<S: Signature>(
    alloc: Global,
    table: &mut Table,
    sig: &S,
    ctx: &[Id],
    m: Id,
    a: Id,
) -> Result<bool, AllocError>
    requires holds { S.holds sig.now table.old }
    requires ctx { AllKnown table.old ctx.now }
    requires m { IsKnown table.old m }
    requires a { IsKnown table.old a }
    ensures answer { let types = ctx_of table.old ctx.now in
        let holds =
        Checks (S.declares sig.now table.old) types (tree_at table.old m) (tree_at table.old a) in
        IfOk result (λ b. IsTrue b ↔ holds) }
    ensures extends { Extends table.old table.new }
{
    let mut kept = Kept::unlimited(alloc);
    match check_term_with(table, &mut kept, sig, ctx, m, a) {
        Ok(answer) => Ok(answer),
        Err(e) => Err(e.memory()),
    }
}

/// Returns whether the term `m` checks against the type `a` in the context `ctx`, as `check_term`
/// does, with the cached results of earlier calls on the table and signature in `kept`.
///
/// Errors: out of memory, or the limit of `kept` is reached; each id keeps its tree.
pub fn check_term_with<S: Signature>(
    table: &mut Table,
    kept: &mut Kept,
    sig: &S,
    ctx: &[Id],
    m: Id,
    a: Id,
) -> Result<bool, Exhausted>
    requires holds { S.holds sig.now table.old }
    requires ctx { AllKnown table.old ctx.now }
    requires m { IsKnown table.old m }
    requires a { IsKnown table.old a }
    requires kept { AreKept (S.declares sig.now table.old) table.old kept.old }
    ensures answer { let types = ctx_of table.old ctx.now in
        let holds =
        Checks (S.declares sig.now table.old) types (tree_at table.old m) (tree_at table.old a) in
        IfOk result (λ b. IsTrue b ↔ holds) }
    ensures extends { Extends table.old table.new }
    ensures kept { AreKept (S.declares sig.now table.new) table.new kept.new }
    ensures spends { SpendsResults table.new kept.old.memo kept.new.memo result }
{
    typing_laws();
    let c = context_on(table, kept, sig, ctx)?;
    check_at(table, kept, sig, c, m, a)
}

/// Returns the type that the atomic term `r` synthesises in the context `ctx`, whose nearest type
/// is last: None exactly if it synthesises none.
///
/// Errors: out of memory alone; each id keeps its tree.
pub fn synth<S: Signature>(
    alloc: Global,
    table: &mut Table,
    sig: &S,
    ctx: &[Id],
    r: Id,
) -> Result<Option<Id>, AllocError>
    requires holds { S.holds sig.now table.old }
    requires ctx { AllKnown table.old ctx.now }
    requires r { IsKnown table.old r }
    ensures derived { let types = ctx_of table.old ctx.now in
        let holds = Synth (S.declares sig.now table.old) types (tree_at table.old r) in
        IfOk result (IsResult table.new holds) }
    ensures extends { Extends table.old table.new }
{
    let mut kept = Kept::unlimited(alloc);
    match synth_with(table, &mut kept, sig, ctx, r) {
        Ok(ty) => Ok(ty),
        Err(e) => Err(e.memory()),
    }
}

/// Returns the type that the atomic term `r` synthesises in the context `ctx`, as `synth` does,
/// with the cached results of earlier calls on the table and signature in `kept`.
///
/// Errors: out of memory, or the limit of `kept` is reached; each id keeps its tree.
pub fn synth_with<S: Signature>(
    table: &mut Table,
    kept: &mut Kept,
    sig: &S,
    ctx: &[Id],
    r: Id,
) -> Result<Option<Id>, Exhausted>
    requires holds { S.holds sig.now table.old }
    requires ctx { AllKnown table.old ctx.now }
    requires r { IsKnown table.old r }
    requires kept { AreKept (S.declares sig.now table.old) table.old kept.old }
    ensures derived { let types = ctx_of table.old ctx.now in
        let holds = Synth (S.declares sig.now table.old) types (tree_at table.old r) in
        IfOk result (IsResult table.new holds) }
    ensures extends { Extends table.old table.new }
    ensures kept { AreKept (S.declares sig.now table.new) table.new kept.new }
    ensures spends { SpendsResults table.new kept.old.memo kept.new.memo result }
{
    typing_laws();
    let c = context_on(table, kept, sig, ctx)?;
    synth_at(table, kept, sig, c, r)
}

/// Returns whether the type `a` is well formed in the context `ctx`, whose nearest type is last:
/// true exactly if there is a derivation.
///
/// Errors: out of memory alone; each id keeps its tree.
pub fn check_type<S: Signature>(
    alloc: Global,
    table: &mut Table,
    sig: &S,
    ctx: &[Id],
    a: Id,
) -> Result<bool, AllocError>
    requires holds { S.holds sig.now table.old }
    requires ctx { AllKnown table.old ctx.now }
    requires a { IsKnown table.old a }
    ensures answer { let types = ctx_of table.old ctx.now in
        let holds = IsType (S.declares sig.now table.old) types (tree_at table.old a) in
        IfOk result (λ b. IsTrue b ↔ holds) }
    ensures extends { Extends table.old table.new }
{
    let mut kept = Kept::unlimited(alloc);
    match check_type_with(table, &mut kept, sig, ctx, a) {
        Ok(answer) => Ok(answer),
        Err(e) => Err(e.memory()),
    }
}

/// Returns whether the type `a` is well formed in the context `ctx`, as `check_type` does, with the
/// cached results of earlier calls on the table and signature in `kept`.
///
/// Errors: out of memory, or the limit of `kept` is reached; each id keeps its tree.
pub fn check_type_with<S: Signature>(
    table: &mut Table,
    kept: &mut Kept,
    sig: &S,
    ctx: &[Id],
    a: Id,
) -> Result<bool, Exhausted>
    requires holds { S.holds sig.now table.old }
    requires ctx { AllKnown table.old ctx.now }
    requires a { IsKnown table.old a }
    requires kept { AreKept (S.declares sig.now table.old) table.old kept.old }
    ensures answer { let types = ctx_of table.old ctx.now in
        let holds = IsType (S.declares sig.now table.old) types (tree_at table.old a) in
        IfOk result (λ b. IsTrue b ↔ holds) }
    ensures extends { Extends table.old table.new }
    ensures kept { AreKept (S.declares sig.now table.new) table.new kept.new }
    ensures spends { SpendsResults table.new kept.old.memo kept.new.memo result }
{
    typing_laws();
    let c = context_on(table, kept, sig, ctx)?;
    is_type_at(table, kept, sig, c, a)
}
