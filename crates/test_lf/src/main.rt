//! Test runner for LF terms, type checking, inference rules and the prover.
//!
//! The rows (test cases) are in `data` (docs/PROOFS.md, "Terms as text"), a file for each layer;
//! any file may ask any question. A question's word is followed by trees; a number among them is a
//! literal.
//!
//! About terms, the signature and substitution (`terms.txt`):
//!
//! - `height t`, `weight t`, `reach t`, and `same a b`: whether two trees have one id;
//! - `declared c`: the type that the first signature of word arithmetic gives a constant, and
//!   `declared_in N c`: the type in signature N, 1 to 3; `parameters N` and `premises N`: how many
//!   the rule with this number has;
//! - `shift BY FROM t`, and `weaken BY t`: from the nearest binder on, by up to 2^32;
//! - `subst S t u`: u for variable 0 in t, S being a type with u's simple type; `subst_type S A u`:
//!   in a type; `subst_weaken LIMIT S A u`: in a type, and then weakened by 1, caching up to LIMIT
//!   results;
//! - `alike A B`: whether two types have one simple type.
//!
//! About type checking (`checks.txt`), each type of a context being over those before it:
//!
//! - `check A .. |- t : B`: whether a term checks against a type; `judged LIMIT A .. |- t : B`:
//!   whether B is a type, and what t synthesises and checks against, caching up to LIMIT results;
//! - `synth A .. |- t`: the type that a term synthesises; `type A .. |- B`: whether B is a type;
//! - `formed c`: whether the type that the signature gives a constant is a type.
//!
//! About the functions of the rules (`rules.txt`), a sequent being its hypotheses, the nearest
//! last, `|-`, its term, `:` and its goal:
//!
//! - `rule R A .. |- a .. / P / ..`: the goal of the sequent that R's function returns under the
//!   hypotheses A .. at the parameters a .. and the sequents P .. of its premises, R being a rule's
//!   constant, over the first signature, and `rule_in N R A .. |- a .. / P / ..`: over signature N;
//!   the runner tests that the result is a sequent under these hypotheses;
//! - `constant c`: the goal of the sequent that is returned for an evaluation, a fact or a denial;
//! - `cmp_le1 N a b`: the goal of the last family's pair N, which is tested too; `by_rule S N a
//!   ..`: the goal of rule N over signature S at parameters, without hypotheses and premises;
//! - `rule_term N a ..`: the term of a rule's number at terms.
//!
//! About what proves a formula (`truths.txt`):
//!
//! - `proves t F`: whether the term t proves the formula F over the first signature, and `proves_in
//!   N t F`: whether it does over signature N;
//! - `proves_after u G t F`: whether it does, with the results cached while checking whether u
//!   proves G;
//! - `proved t F`: whether F is the formula that t proves, which is found without F.
//!
//! About lemmas over the second signature (`lemmas.txt`), which are pairs of a formula and its
//! proof, separated by `/`:
//!
//! - `formless F p / ..`, `proofless F p / ..` and `late F p / ..`: the number of the first lemma
//!   whose formula isn't one, whose proof doesn't check over the signature without lemmas, or whose
//!   proof cites itself or a later lemma;
//! - `unproved F p / ..`: the number of the first lemma whose proof doesn't check with the lemmas
//!   before it, and none if a formula isn't one;
//! - `proves_with F p / .. |- t G`: whether t proves G with these lemmas, and each lemma its own
//!   formula with the lemmas before it;
//! - `declared_with F p / .. |- c`: the type that the signature with these lemmas gives a constant.
//!
//! About the encodings of formulas (`encodings.txt`), over no variables except in the last two:
//!
//! - `form t`: whether t encodes a formula; `formula_height t`: the height of that formula;
//! - `relation t`: the relation of two words that t encodes, as a fact; `operator t`: the operator
//!   at two words that t encodes a right to load at, as an evaluation;
//! - `quantified Q t`: the quantifier of the constant Q over t;
//! - `put_five t`: t over m and r0 to r30, with 5 for each; `is_five_put t u`: whether u is that.
//!
//! About the ids of formulas and expressions (`formulas.txt`):
//!
//! - `head F`: the constant at the head of a formula; `exp_head e` and `mem_head m`: the head of an
//!   expression or a memory, which is the tree itself if it is a variable or a literal;
//! - `left O e` and `right O e`: the operands if O is the operator at the head; `literal e`;
//! - `put F e` and `put_exp e e`: an expression for variable 0, in a formula or an expression;
//!   `raised t`: under one binder more;
//! - `reflexive a`, `moved F a b p q` and `swapped a b p`: the proofs that steps of equations make.
//!
//! About what the prover finds (`prover.txt`), a hypothesis F being split as the prover splits it,
//! with variable 0 as its proof:
//!
//! - `split F`: how many hypotheses it is split into; `split_raised N F`: how many there are under
//!   one binder more, if at most N results are cached;
//! - `found F G`: whether G is one of them there; `refuted F`: whether they refute each other
//!   there;
//! - `first G F p ..`: the proof of the first hypothesis F with the formula G, of hypotheses each
//!   followed by its proof p; `aligned e`: what proves without hypotheses that e is a multiple of
//!   8;
//! - `upper F e` and `lower F e`: the word that is a bound of e if variable 1 proves F;
//!   `counted_lower F e`: the lower bound if steps are counted;
//! - `normal N e`: the normal form under N binders, the binder of the remaining steps among them;
//!   `rewritten N e`: that form as the search caches it; `plain N e`: that form found with no
//!   proof;
//! - `rest a b`, `eighth e`, `occurs e`: what is left of a without b, the eighth of e, and whether
//!   variable 0 occurs in e;
//! - `words F G`, `connectives F G`, `access F G`: what proves G by words, by connectives and
//!   words, or as an access, under the hypothesis F; `counted_connectives F G`: by connectives and
//!   words if steps are counted.
#![tactic(auto)]

mod answers;
mod encodings;
mod expressions;
mod formulas;
mod functions;
mod goals;
mod hypotheses;
mod judgements;
mod lemmas;
mod questions;
mod rules;
mod terms;
mod truths;

use judgements::{checks, is_type, judges, synthesises};
use lemmas::about_lemmas;
use questions::about_trees;
use rules::{goal_in, goal_in_first};
use std::io;
use term_table::Table;
use test_inputs::cursors::Cursor;
use test_inputs::faults::Read;
use test_inputs::names::Names;
use test_inputs::rows::{Answer, Questions, run};
use test_inputs::term_text::read_trees;

/// The questions of all layers and of the prover.
struct LayerQuestions;

/// The answer to a question on the trees that the cursor stands before.
fn about_read(
    table: &mut Table,
    names: &Names,
    question: &[u8],
    cursor: &mut Cursor<'_>,
) -> Read<Answer> {
    let trees = read_trees(table, names, cursor)?;
    about_trees(table, question, trees.as_slice())
}

impl Questions for LayerQuestions {
    fn answer(
        table: &mut Table,
        names: &Names,
        question: &[u8],
        cursor: &mut Cursor<'_>,
    ) -> Read<Answer> {
        match question {
            b"check" => checks(table, names, cursor),
            b"judged" => judges(table, names, cursor),
            b"synth" => synthesises(table, names, cursor),
            b"type" => is_type(table, names, cursor),
            b"rule" => goal_in_first(table, names, cursor),
            b"rule_in" => goal_in(table, names, cursor),
            b"formless"
            | b"proofless"
            | b"late"
            | b"unproved"
            | b"proves_with"
            | b"declared_with" => { about_lemmas(table, names, question, cursor) }
            _ => about_read(table, names, question, cursor),
        }
    }
}

/// Prints the name of a file, and goes through its rows.
fn run_file(rt: &HostRuntime, name: &str) -> io::Result<()> {
    println!(rt; "{name}")?;
    run::<HostRuntime, LayerQuestions>(rt, name)
}

fn main(rt: HostRuntime) -> io::Result<()> {
    run_file(&rt, "terms.txt")?;
    run_file(&rt, "checks.txt")?;
    run_file(&rt, "rules.txt")?;
    run_file(&rt, "truths.txt")?;
    run_file(&rt, "lemmas.txt")?;
    run_file(&rt, "encodings.txt")?;
    run_file(&rt, "formulas.txt")?;
    run_file(&rt, "prover.txt")
}
