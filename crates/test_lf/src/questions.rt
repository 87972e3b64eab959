//! Which function answers a question: by its word, and by how many terms stand behind it.

ghost use Rattle.term_table.specs.Table.{IsKnown};

use crate::encodings::{Asked, about_formula, bound, encodes, is_five_put, put_five};
use crate::expressions::{
    eighth_part, lower, normalised, occurrence, plain, rest, rewritten, upper,
};
use crate::formulas::{
    exp_head, form_head, left, literal_word, mem_head, move_proof, put, put_exp, raise,
    reflexive_proof, right, swap_proof,
};
use crate::goals::{Way, proof};
use crate::hypotheses::{alignment, first_proof, is_found, is_refuted, raised_count, split_count};
use crate::judgements::formed;
use crate::rules::{applied, bare_goal, constant_goal, pair_goal};
use crate::terms::{
    alike, declared_in, declared_type, parameter_count, premise_count, same, shifted, substituted,
    substituted_and_raised, substituted_in_type, weakened,
};
use crate::truths::{proved, proves, proves_after, proves_in};
use lf_signature::Sigma1;
use term_table::{Id, Table};
use test_inputs::faults::{Read, RowFault};
use test_inputs::rows::Answer;
use test_inputs::term_text::known;

/// The answer to a question of the prover on one term.
fn of_one_for_prover(table: &mut Table, question: &[u8], a: Id) -> Read<Answer>
    requires { IsKnown table.old a }
{
    match question {
        b"split" => split_count(table, a),
        b"refuted" => is_refuted(table, a),
        b"aligned" => Ok(alignment(table, a)),
        b"eighth" => Ok(eighth_part(table, a)),
        b"occurs" => Ok(occurrence(table, a)),
        _ => Err(RowFault::Word),
    }
}

/// The answer to a question on one formula or expression.
fn of_one_formula(table: &mut Table, question: &[u8], a: Id) -> Read<Answer>
    requires { IsKnown table.old a }
{
    match question {
        b"head" => Ok(form_head(table, a)),
        b"exp_head" => Ok(exp_head(table, a)),
        b"mem_head" => Ok(mem_head(table, a)),
        b"literal" => Ok(literal_word(table, a)),
        b"raised" => Ok(raise(table, a)),
        b"reflexive" => Ok(reflexive_proof(table, a)),
        _ => of_one_for_prover(table, question, a),
    }
}

/// The answer to a question on one encoding.
fn of_one_encoding(table: &mut Table, question: &[u8], a: Id) -> Read<Answer>
    requires { IsKnown table.old a }
{
    match question {
        b"form" => Ok(encodes(table, a)),
        b"relation" => about_formula(table, a, Asked::Relation),
        b"operator" => about_formula(table, a, Asked::Operator),
        b"formula_height" => about_formula(table, a, Asked::Height),
        b"put_five" => put_five(table, a),
        _ => of_one_formula(table, question, a),
    }
}

/// The answer to a question on one tree.
fn of_one(table: &mut Table, question: &[u8], a: Id) -> Read<Answer>
    requires { IsKnown table.old a }
{
    match question {
        b"height" => Ok(Answer::Number(u64::from(table.height(a)))),
        b"weight" => Ok(Answer::Number(u64::from(table.weight(a)))),
        b"reach" => Ok(Answer::Number(u64::from(table.reach(a)))),
        b"declared" => Ok(declared_type(table, &Sigma1, a)),
        b"parameters" => parameter_count(table, a),
        b"premises" => premise_count(table, a),
        b"formed" => Ok(formed(table, a)),
        b"constant" => constant_goal(table, a),
        _ => of_one_encoding(table, question, a),
    }
}

/// The answer to a question of the prover on an expression under a number of binders, or on two.
fn of_two_sums(table: &mut Table, question: &[u8], a: Id, b: Id) -> Read<Answer>
    requires a { IsKnown table.old a }
    requires b { IsKnown table.old b }
{
    match question {
        b"normal" => normalised(table, a, b),
        b"rewritten" => rewritten(table, a, b),
        b"plain" => plain(table, a, b),
        b"rest" => Ok(rest(table, a, b)),
        b"split_raised" => raised_count(table, a, b),
        b"found" => is_found(table, a, b),
        _ => Err(RowFault::Word),
    }
}

/// The answer to a question of the prover on what a hypothesis gives.
fn of_hypothesis(table: &mut Table, question: &[u8], a: Id, b: Id) -> Read<Answer>
    requires a { IsKnown table.old a }
    requires b { IsKnown table.old b }
{
    match question {
        b"upper" => upper(table, a, b),
        b"lower" => lower(table, false, a, b),
        b"counted_lower" => lower(table, true, a, b),
        b"words" => proof(table, Way::Words, a, b),
        b"access" => proof(table, Way::Access, a, b),
        b"connectives" => proof(table, Way::Connectives, a, b),
        b"counted_connectives" => proof(table, Way::CountedConnectives, a, b),
        _ => of_two_sums(table, question, a, b),
    }
}

/// The answer to a question on two formulas or expressions.
fn of_two_formulas(table: &mut Table, question: &[u8], a: Id, b: Id) -> Read<Answer>
    requires a { IsKnown table.old a }
    requires b { IsKnown table.old b }
{
    match question {
        b"quantified" => bound(table, a, b),
        b"is_five_put" => is_five_put(table, a, b),
        b"left" => left(table, a, b),
        b"right" => right(table, a, b),
        b"put" => Ok(put(table, a, b)),
        b"put_exp" => Ok(put_exp(table, a, b)),
        _ => of_hypothesis(table, question, a, b),
    }
}

/// The answer to a question on two trees.
fn of_two(table: &mut Table, question: &[u8], a: Id, b: Id) -> Read<Answer>
    requires a { IsKnown table.old a }
    requires b { IsKnown table.old b }
{
    match question {
        b"same" => Ok(same(table, a, b)),
        b"alike" => alike(table, a, b),
        b"weaken" => weakened(table, a, b),
        b"declared_in" => declared_in(table, a, b),
        b"proves" => Ok(proves(table, &Sigma1, a, b)),
        b"proved" => Ok(proved(table, a, b)),
        _ => of_two_formulas(table, question, a, b),
    }
}

/// The answer to a question on three trees.
fn of_three(table: &mut Table, question: &[u8], a: Id, b: Id, c: Id) -> Read<Answer>
    requires a { IsKnown table.old a }
    requires b { IsKnown table.old b }
    requires c { IsKnown table.old c }
{
    match question {
        b"shift" => shifted(table, a, b, c),
        b"subst" => substituted(table, a, b, c),
        b"subst_type" => substituted_in_type(table, a, b, c),
        b"proves_in" => proves_in(table, a, b, c),
        b"cmp_le1" => pair_goal(table, a, b, c),
        b"swapped" => Ok(swap_proof(table, a, b, c)),
        _ => Err(RowFault::Word),
    }
}

/// The answer to a question on four trees.
fn of_four(table: &mut Table, question: &[u8], a: Id, b: Id, c: Id, d: Id) -> Read<Answer>
    requires a { IsKnown table.old a }
    requires b { IsKnown table.old b }
    requires c { IsKnown table.old c }
    requires d { IsKnown table.old d }
{
    match question {
        b"subst_weaken" => substituted_and_raised(table, a, b, c, d),
        b"proves_after" => proves_after(table, a, b, c, d),
        _ => Err(RowFault::Word),
    }
}

/// The answer to a question on one tree, which is tested to be of the table.
fn about_one(table: &mut Table, question: &[u8], a: Id) -> Read<Answer> {
    known(table, a)?;
    of_one(table, question, a)
}

/// The answer to a question on two trees, which are tested to be of the table.
fn about_two(table: &mut Table, question: &[u8], a: Id, b: Id) -> Read<Answer> {
    known(table, a)?;
    known(table, b)?;
    of_two(table, question, a, b)
}

/// The answer to a question on three trees, which are tested to be of the table.
fn about_three(table: &mut Table, question: &[u8], a: Id, b: Id, c: Id) -> Read<Answer> {
    known(table, a)?;
    known(table, b)?;
    known(table, c)?;
    of_three(table, question, a, b, c)
}

/// The answer to a question on four trees, which are tested to be of the table.
fn about_four(table: &mut Table, question: &[u8], a: Id, b: Id, c: Id, d: Id) -> Read<Answer> {
    known(table, a)?;
    known(table, b)?;
    known(table, c)?;
    known(table, d)?;
    of_four(table, question, a, b, c, d)
}

/// The answer to a question on as many trees as stand behind it.
fn by_count(table: &mut Table, question: &[u8], trees: &[Id]) -> Read<Answer> {
    match trees {
        [] => Err(RowFault::Ends),
        [a] => about_one(table, question, *a),
        [a, b] => about_two(table, question, *a, *b),
        [a, b, c] => about_three(table, question, *a, *b, *c),
        [a, b, c, d] => about_four(table, question, *a, *b, *c, *d),
        _ => Err(RowFault::Longer),
    }
}

/// What a rule concludes: a signature's number, the rule's and its parameters.
fn by_rule(table: &mut Table, trees: &[Id]) -> Read<Answer> {
    match trees {
        [signature, number, params @ ..] => {
            known(table, *signature)?;
            known(table, *number)?;
            bare_goal(table, *signature, *number, params)
        }
        _ => Err(RowFault::Ends),
    }
}

/// The term of a rule: its number and the terms that it is applied to.
fn rule_term(table: &mut Table, trees: &[Id]) -> Read<Answer> {
    match trees {
        [number, terms @ ..] => {
            known(table, *number)?;
            applied(table, *number, terms)
        }
        _ => Err(RowFault::Ends),
    }
}

/// The first proof of a formula: the formula, and hypotheses with their proofs.
fn first(table: &Table, trees: &[Id]) -> Read<Answer> {
    match trees {
        [wanted, pairs @ ..] => first_proof(table, *wanted, pairs),
        _ => Err(RowFault::Ends),
    }
}

/// The proof that an equation moves: a formula, two terms and two proofs.
fn moved(table: &mut Table, trees: &[Id]) -> Read<Answer> {
    match trees {
        [form, a, b, equal, proof] => move_proof(table, *form, *a, *b, *equal, *proof),
        _ => Err(RowFault::Ends),
    }
}

/// The answer to a question on trees.
pub(crate) fn about_trees(table: &mut Table, question: &[u8], trees: &[Id]) -> Read<Answer> {
    match question {
        b"by_rule" => by_rule(table, trees),
        b"rule_term" => rule_term(table, trees),
        b"first" => first(table, trees),
        b"moved" => moved(table, trees),
        _ => by_count(table, question, trees),
    }
}
