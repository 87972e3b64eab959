//! A proof that cites a lemma: made by calls of proof_kit, true by `prove_true`, and accepted in a
//! container of version 4. Which lemmas are refused is in rows of `check` (test_commands:
//! `lemmas.rows`).

ghost use Rattle.std.specs.Prelude.{[], length, IfOk};
ghost use Rattle.alpha_cfg.specs.Cuts.{AreFlags};

use crate::accepted::{RETURN, container};
use crate::answers::{Made, made};
use crate::connectives;
use crate::entries::{field, put_entries, put_number, put_proof};
use crate::nodes::known;
use crate::rules::{Rule, Step, Under, are_proved, lemmas_known};
use alpha_cfg::{Code, Cut};
use lf_lemmas::WithLemmas;
use lf_signature::numbers::TT;
use lf_signature::{LONGEST, Sigma3};
use lf_truth::{ProvedLemmas, prove_true};
use pcc_gate::gate;
use policy_set::{Policy, PolicyKind};
use proof_container::walk_from;
use std::alloc::Global;
use std::test::Fail;
use term_table::{Id, Node, Table};
use vcgen::vc;
use word_ops::Profile;

/// Truth as a lemma, with the kit's proof.
fn truth(table: &mut Table) -> Made<(Id, Id)> {
    let goal = made(table.intern(Node::Const(TT)))?;
    let under = Under {
        lemmas: &[],
        hyps: &[],
    };
    let s = under.by(table, Step::at(Rule::TtI, goal))?;
    Ok((s.goal, s.term))
}

/// Whether the term proves a true formula with the lemmas.
fn is_true(table: &mut Table, lemmas: &[(Id, Id)], proof: Id, formula: Id) -> Made<bool> {
    are_proved(table, lemmas)?;
    known(table, proof)?;
    known(table, formula)?;
    let sig = ProvedLemmas {
        extended: WithLemmas {
            sig: &Sigma3,
            lemmas,
        },
    };
    made(prove_true(table, &sig, proof, formula))
}

/// The fields behind the digest of a return with lemmas and a proof.
fn fields_of(table: &Table, lemmas: &[(Id, Id)], proof: Id) -> Made<Vec<u32>> {
    known(table, proof)?;
    lemmas_known(table, lemmas)?;
    let alloc = table.allocator();
    let walk = made(walk_from(alloc, table, &[], lemmas, Some(proof)))?;
    let mut fields = Vec::new(alloc);
    made(fields.extend_from_slice(&[1, RETURN]))?;
    put_entries(&mut fields, table, &walk)?;
    let count = field(lemmas.len() as u64)?;
    made(fields.extend_from_slice(&[0, count]))?;
    for lemma in lemmas {
        put_number(&mut fields, &walk, lemma.0)?;
        put_number(&mut fields, &walk, lemma.1)?;
    }
    put_proof(&mut fields, &walk, proof)?;
    Ok(fields)
}

/// The bytes of `ret`.
const RETURNING: [u8; 4] = [0x01, 0x80, 0xfa, 0x6b];

/// The code without annotated indices.
fn cut_code(alloc: Global) -> Made<Cut>
    ensures { IfOk result (λ cut. AreFlags [] (length cut.code) cut.marks) }
{
    let Ok(code) = Code::of(alloc, &RETURNING, Profile::Two) else {
        return Err("no code");
    };
    match code.cut(alloc, &[]) {
        Ok(cut) => Ok(cut),
        Err(_) => Err("not cut"),
    }
}

/// The container of a return with lemma 0 and the kit's proof, which is tested to be one of a true
/// formula.
fn proved_return(alloc: Global, policy: &Policy) -> Made<Vec<u8>> {
    let cut = cut_code(alloc)?;
    let mut table = Table::new(alloc, LONGEST.places());
    let condition = made(vc(&mut table, &cut, policy, &[], None))?;
    let lemma = truth(&mut table)?;
    let lemmas = [lemma];
    let under = Under {
        lemmas: &lemmas,
        hyps: &[],
    };
    let proof = connectives::proved(&mut table, under, condition, 64)?;
    if !is_true(&mut table, &lemmas, proof.term, condition)? {
        return Err("no proof");
    }
    let fields = fields_of(&table, &lemmas, proof.term)?;
    made(container(alloc, policy, 4, fields.as_slice()))
}

/// A proof of the kit that cites a lemma is accepted with it.
#[test]
fn a_proof_of_the_kit_cites_a_lemma(rt: HostRuntime) -> Result<(), Fail> {
    let policy = made(Policy::of(rt.alloc(), PolicyKind::Tag))?;
    let bytes = proved_return(rt.alloc(), &policy)?;
    assert!(rt; gate(rt.alloc(), &policy, &bytes).is_ok());
    Ok(())
}
