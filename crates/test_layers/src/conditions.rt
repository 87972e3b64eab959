//! Laws, and conditions under a limit. The unfolded length's limit and conditions that share are in
//! rows of `check` and `prove` (test_commands: `check.rows`, `worked.rows`); the formulas of policies
//! and of containers, encoded and read back, in rows of `goals` and `list` (`view-seen.rows`,
//! `view-goals.rows`, `view-list.rows`).

ghost use Rattle.std.specs.Prelude.{[], IfOk, length};
ghost use Rattle.alpha_cfg.specs.Cuts.{AreFlags};
ghost use Rattle.term_table.specs.Table.{IsKnown, Extends};

use crate::answers::{Made, made};
use alpha_cfg::{Code, Cut};
use gate_match::is_condition_with;
use hereditary_subst::Memo;
use lf_encode::{
    adequacy_laws, put_laws, scope_laws, substitution_in_contexts, substitution_on_encodings,
};
use lf_signature::WordSignature;
use policy_set::{Policy, PolicyKind};
use std::alloc::Global;
use std::test::Fail;
use term_table::{Id, Node, Table};
use vcgen::{VcFault, condition_laws, encoding_laws, left_laws, vc, worked_conditions};
use word_ops::Profile;

#[test]
fn laws() {
    adequacy_laws();
    substitution_on_encodings();
    substitution_in_contexts();
    scope_laws();
    put_laws();
    condition_laws();
    encoding_laws();
    left_laws();
    worked_conditions();
    pcc_gate::laws();
}

/// `lda r0,1(r31)` and `ret`.
const RETURNING: [u8; 8] = [0x01, 0x00, 0x1f, 0x20, 0x01, 0x80, 0xfa, 0x6b];

/// The code without annotated indices.
fn cut_code(alloc: Global) -> Made<Cut>
    ensures { IfOk result (λ cut. AreFlags [] (length cut.code) cut.marks) }
{
    let Ok(code) = Code::of(alloc, &RETURNING, Profile::One) else {
        return Err("no code");
    };
    match code.cut(alloc, &[]) {
        Ok(cut) => Ok(cut),
        Err(_) => Err("not cut"),
    }
}

/// Whether past a limit of one result that is the answer.
fn is_limited(table: &mut Table, cut: &Cut, policy: &Policy, formula: Id) -> bool
    requires marks { AreFlags [] (length cut.now.code) cut.now.marks }
    requires formula { IsKnown table.old formula }
    ensures extends { Extends table.old table.new }
{
    let mut memo = Memo::new(table.allocator(), 1);
    is_condition_with(table, &mut memo, cut, policy, &[], None, formula) == Err(VcFault::Results)
}

/// Whether two calls in one memo tell the formula from a word.
fn is_told(table: &mut Table, cut: &Cut, policy: &Policy, formula: Id) -> Result<bool, VcFault>
    requires marks { AreFlags [] (length cut.now.code) cut.now.marks }
    requires formula { IsKnown table.old formula }
{
    let mut memo = Memo::new(table.allocator(), 1_000);
    let word = table.intern(Node::Lit(0))?;
    let other = is_condition_with(table, &mut memo, cut, policy, &[], None, word)?;
    let is = is_condition_with(table, &mut memo, cut, policy, &[], None, formula)?;
    Ok(is && !other)
}

/// Whether both hold of the condition in this table.
fn is_answered_in(table: &mut Table, cut: &Cut, policy: &Policy) -> Result<bool, VcFault>
    requires { AreFlags [] (length cut.now.code) cut.now.marks }
{
    let formula = vc(table, cut, policy, &[], None)?;
    let limited = is_limited(table, cut, policy, formula);
    Ok(is_told(table, cut, policy, formula)? && limited)
}

/// Whether both hold of a new table.
fn is_answered(alloc: Global, cut: &Cut, policy: &Policy) -> Result<bool, VcFault>
    requires { AreFlags [] (length cut.now.code) cut.now.marks }
{
    let mut table = Table::new(alloc, WordSignature::Sigma1.places());
    is_answered_in(&mut table, cut, policy)
}

/// Whether they hold of the condition of the code under the policy filter.
fn is_filtered(alloc: Global, cut: &Cut) -> Made<bool>
    requires { AreFlags [] (length cut.now.code) cut.now.marks }
{
    let policy = made(Policy::of(alloc, PolicyKind::Filter))?;
    made(is_answered(alloc, cut, &policy))
}

/// Past the limit of what is kept that is the answer; within it the condition is told from a word.
#[test]
fn a_limit(rt: HostRuntime) -> Result<(), Fail> {
    let cut = cut_code(rt.alloc())?;
    assert!(rt; is_filtered(rt.alloc(), &cut)?);
    Ok(())
}
