//! Calls of the function of each rule by the rule's number, over each signature of word arithmetic.

ghost use Rattle.std.specs.Prelude.{[], ◌∷◌};
ghost use Rattle.term_table.specs.Table.{AllKnown};
ghost use Rattle.lf_signature.specs.Constants.{declared};
ghost use Rattle.lf_check.specs.Kept.{AreKept};
ghost use Rattle.lf_sequents.specs.Sequents.{AreSequents};

use lf_check::Kept;
use lf_sequents::Sequent;
use lf_signature::WordSignature;
use proof_kit::{
    add_al, add_assoc, add_comm, add_le, add_zero, all_e, all_i, allm_e, allm_i, and_assoc,
    and_comm, and_i, and_l, and_le, and_r, and_zero, bic_def, bic_le, bis_zero, bis_zero_l,
    cmp_le1, cmp_no, cmp_yes, em, eq_refl, eq_sub, extb_le, extl_le, extw_le, ff_e, imp_e, imp_i,
    le_anti, le_lt, lt_irr, lt_le, lt_pred, max_le, not_lt, or_e, or_l, or_r, s4_def, s8_def,
    sel_other, sel_same, sll_al, sll_mono, srl_mono, sub_add, sub_lo, sub_neg, tt_i, ule_refl,
    ule_trans, ult_ule, xor_self, zero_le,
};
use std::alloc::{AllocError, Global};
use term_table::{Id, Table};

/// The result of a rule's function.
pub type KitAnswer = Result<Option<Sequent>, AllocError>;

/// The answer of the function of a rule of connectives.
fn of_connectives(
    alloc: Global,
    table: &mut Table,
    sig: &WordSignature,
    kept: &mut Kept,
    hyps: &[Id],
    rule: u32,
    a: Id,
    b: Id,
    c: Id,
    d: Id,
    p: &Sequent,
    q: &Sequent,
    r: &Sequent,
) -> KitAnswer
    requires hyps { AllKnown table.old hyps.now }
    requires params { AllKnown table.old (a ∷ b ∷ c ∷ d ∷ []) }
    requires premises { AreSequents (declared sig.now) table.old (p.now ∷ q.now ∷ r.now ∷ []) }
    requires kept { AreKept (declared sig.now) table.old kept.old }
{
    match rule {
        27 => tt_i(alloc, table, sig, kept, hyps),
        28 => ff_e(alloc, table, sig, kept, hyps, a, p),
        29 => and_i(alloc, table, sig, kept, hyps, a, b, p, q),
        30 => and_l(alloc, table, sig, kept, hyps, a, b, p),
        31 => and_r(alloc, table, sig, kept, hyps, a, b, p),
        32 => or_l(alloc, table, sig, kept, hyps, a, b, p),
        33 => or_r(alloc, table, sig, kept, hyps, a, b, p),
        34 => or_e(alloc, table, sig, kept, hyps, a, b, c, p, q, r),
        35 => imp_i(alloc, table, sig, kept, hyps, a, b, p),
        36 => imp_e(alloc, table, sig, kept, hyps, a, b, p, q),
        37 => em(alloc, table, sig, kept, hyps, a),
        _ => Ok(None),
    }
}

/// The answer of the function of a rule of quantifiers, equality and memories.
fn of_functions(
    alloc: Global,
    table: &mut Table,
    sig: &WordSignature,
    kept: &mut Kept,
    hyps: &[Id],
    rule: u32,
    a: Id,
    b: Id,
    c: Id,
    d: Id,
    p: &Sequent,
    q: &Sequent,
    r: &Sequent,
) -> KitAnswer
    requires hyps { AllKnown table.old hyps.now }
    requires params { AllKnown table.old (a ∷ b ∷ c ∷ d ∷ []) }
    requires premises { AreSequents (declared sig.now) table.old (p.now ∷ q.now ∷ r.now ∷ []) }
    requires kept { AreKept (declared sig.now) table.old kept.old }
{
    match rule {
        38 => all_i(alloc, table, sig, kept, hyps, a, p),
        39 => all_e(alloc, table, sig, kept, hyps, a, b, p),
        40 => allm_i(alloc, table, sig, kept, hyps, a, p),
        41 => allm_e(alloc, table, sig, kept, hyps, a, b, p),
        42 => eq_refl(alloc, table, sig, kept, hyps, a),
        43 => eq_sub(alloc, table, sig, kept, hyps, a, b, c, p, q),
        44 => sel_same(alloc, table, sig, kept, hyps, a, b, c),
        45 => sel_other(alloc, table, sig, kept, hyps, a, b, c, d, p),
        _ => Ok(None),
    }
}

/// The answer of the function of a rule of arithmetic.
fn of_arithmetic(
    alloc: Global,
    table: &mut Table,
    sig: &WordSignature,
    kept: &mut Kept,
    hyps: &[Id],
    rule: u32,
    a: Id,
    b: Id,
    c: Id,
    d: Id,
    p: &Sequent,
    q: &Sequent,
    r: &Sequent,
) -> KitAnswer
    requires hyps { AllKnown table.old hyps.now }
    requires params { AllKnown table.old (a ∷ b ∷ c ∷ d ∷ []) }
    requires premises { AreSequents (declared sig.now) table.old (p.now ∷ q.now ∷ r.now ∷ []) }
    requires kept { AreKept (declared sig.now) table.old kept.old }
{
    match rule {
        46 => add_comm(alloc, table, sig, kept, hyps, a, b),
        47 => add_assoc(alloc, table, sig, kept, hyps, a, b, c),
        48 => add_zero(alloc, table, sig, kept, hyps, a),
        49 => sub_add(alloc, table, sig, kept, hyps, a, b),
        50 => sub_neg(alloc, table, sig, kept, hyps, a, b),
        51 => and_comm(alloc, table, sig, kept, hyps, a, b),
        52 => and_assoc(alloc, table, sig, kept, hyps, a, b, c),
        53 => and_zero(alloc, table, sig, kept, hyps, a),
        54 => and_le(alloc, table, sig, kept, hyps, a, b),
        55 => bis_zero(alloc, table, sig, kept, hyps, a),
        56 => bis_zero_l(alloc, table, sig, kept, hyps, a),
        57 => add_al(alloc, table, sig, kept, hyps, a, b, p, q),
        58 => sll_al(alloc, table, sig, kept, hyps, a),
        _ => Ok(None),
    }
}

/// The answer of the function of a rule of order.
fn of_order(
    alloc: Global,
    table: &mut Table,
    sig: &WordSignature,
    kept: &mut Kept,
    hyps: &[Id],
    rule: u32,
    a: Id,
    b: Id,
    c: Id,
    d: Id,
    p: &Sequent,
    q: &Sequent,
    r: &Sequent,
) -> KitAnswer
    requires hyps { AllKnown table.old hyps.now }
    requires params { AllKnown table.old (a ∷ b ∷ c ∷ d ∷ []) }
    requires premises { AreSequents (declared sig.now) table.old (p.now ∷ q.now ∷ r.now ∷ []) }
    requires kept { AreKept (declared sig.now) table.old kept.old }
{
    match rule {
        59 => srl_mono(alloc, table, sig, kept, hyps, a, b, c, p),
        60 => sll_mono(alloc, table, sig, kept, hyps, a, b, c, p, q),
        61 => zero_le(alloc, table, sig, kept, hyps, a),
        62 => max_le(alloc, table, sig, kept, hyps, a),
        63 => ule_refl(alloc, table, sig, kept, hyps, a),
        64 => ule_trans(alloc, table, sig, kept, hyps, a, b, c, p, q),
        65 => ult_ule(alloc, table, sig, kept, hyps, a, b, p),
        66 => lt_le(alloc, table, sig, kept, hyps, a, b, c, p, q),
        67 => le_lt(alloc, table, sig, kept, hyps, a, b, c, p, q),
        68 => lt_pred(alloc, table, sig, kept, hyps, a, b, p),
        69 => le_anti(alloc, table, sig, kept, hyps, a, b, p, q),
        70 => not_lt(alloc, table, sig, kept, hyps, a, b, p),
        71 => lt_irr(alloc, table, sig, kept, hyps, a, p),
        72 => add_le(alloc, table, sig, kept, hyps, a, b, c, d, p, q, r),
        _ => Ok(None),
    }
}

/// The answer of the function of a rule of compares.
fn of_compares(
    alloc: Global,
    table: &mut Table,
    sig: &WordSignature,
    kept: &mut Kept,
    hyps: &[Id],
    rule: u32,
    a: Id,
    b: Id,
    c: Id,
    d: Id,
    p: &Sequent,
    q: &Sequent,
    r: &Sequent,
) -> KitAnswer
    requires hyps { AllKnown table.old hyps.now }
    requires params { AllKnown table.old (a ∷ b ∷ c ∷ d ∷ []) }
    requires premises { AreSequents (declared sig.now) table.old (p.now ∷ q.now ∷ r.now ∷ []) }
    requires kept { AreKept (declared sig.now) table.old kept.old }
{
    match rule {
        73..=77 => cmp_yes(alloc, table, sig, kept, hyps, rule - 73, a, b, p),
        78..=82 => cmp_no(alloc, table, sig, kept, hyps, rule - 78, a, b, p),
        83..=87 => cmp_le1(alloc, table, sig, kept, hyps, rule - 83, a, b),
        _ => Ok(None),
    }
}

/// The answer of the function of a rule that the later signatures alone have.
fn of_later(
    alloc: Global,
    table: &mut Table,
    sig: &WordSignature,
    kept: &mut Kept,
    hyps: &[Id],
    rule: u32,
    a: Id,
    b: Id,
    c: Id,
    d: Id,
    p: &Sequent,
    q: &Sequent,
    r: &Sequent,
) -> KitAnswer
    requires hyps { AllKnown table.old hyps.now }
    requires params { AllKnown table.old (a ∷ b ∷ c ∷ d ∷ []) }
    requires premises { AreSequents (declared sig.now) table.old (p.now ∷ q.now ∷ r.now ∷ []) }
    requires kept { AreKept (declared sig.now) table.old kept.old }
{
    match rule {
        96 => xor_self(alloc, table, sig, kept, hyps, a),
        97 => bic_le(alloc, table, sig, kept, hyps, a, b),
        98 => s4_def(alloc, table, sig, kept, hyps, a, b),
        99 => s8_def(alloc, table, sig, kept, hyps, a, b),
        100 => extb_le(alloc, table, sig, kept, hyps, a, b),
        101 => extw_le(alloc, table, sig, kept, hyps, a, b),
        102 => extl_le(alloc, table, sig, kept, hyps, a, b),
        103 => bic_def(alloc, table, sig, kept, hyps, a, b),
        104 => sub_lo(alloc, table, sig, kept, hyps, a, b, c, p, q),
        _ => Ok(None),
    }
}

/// Returns the result of the function of the rule with this number.
pub fn by_number(
    alloc: Global,
    table: &mut Table,
    sig: &WordSignature,
    kept: &mut Kept,
    hyps: &[Id],
    rule: u32,
    a: Id,
    b: Id,
    c: Id,
    d: Id,
    p: &Sequent,
    q: &Sequent,
    r: &Sequent,
) -> KitAnswer
    requires hyps { AllKnown table.old hyps.now }
    requires params { AllKnown table.old (a ∷ b ∷ c ∷ d ∷ []) }
    requires premises { AreSequents (declared sig.now) table.old (p.now ∷ q.now ∷ r.now ∷ []) }
    requires kept { AreKept (declared sig.now) table.old kept.old }
{
    match rule {
        27..=37 => of_connectives(alloc, table, sig, kept, hyps, rule, a, b, c, d, p, q, r),
        38..=45 => of_functions(alloc, table, sig, kept, hyps, rule, a, b, c, d, p, q, r),
        46..=58 => of_arithmetic(alloc, table, sig, kept, hyps, rule, a, b, c, d, p, q, r),
        59..=72 => of_order(alloc, table, sig, kept, hyps, rule, a, b, c, d, p, q, r),
        73..=87 => of_compares(alloc, table, sig, kept, hyps, rule, a, b, c, d, p, q, r),
        _ => of_later(alloc, table, sig, kept, hyps, rule, a, b, c, d, p, q, r),
    }
}
