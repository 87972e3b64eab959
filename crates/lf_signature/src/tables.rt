//! The types of the numbered constants, in their order, and where each stands.

ghost use Rattle.std.specs.Prelude.{◌≡◌, map, take, drop};
ghost use Rattle.std.specs.Option.{option_map};
ghost use Rattle.term_table.specs.Tree.{at};
ghost use Rattle.lf_signature.specs.Schemas.{constant_type, rule_of};
ghost use Rattle.lf_signature.specs.Constants.{constant_types, the_rules, parameter_counts};
ghost use Rattle.lf_signature.specs.Constants.{stretch_of, place_of, rule_at};
ghost use Rattle.lf_signature.specs.declared.numbers.TheConstants.{FIRST_RULES};

use crate::numbers::{COUNT, EXP, FIRST_RULE, FIRST_RULES, FORM, LATER_RULE, MEM, SYMBOLS, XOR};
use crate::schema::Connective::{And, Imp, Or};
use crate::schema::Exp::{Apply, Own, Sel, Word};
use crate::schema::Form::{All, Allm, False, Holds, Join, Of, OfMem, True};
use crate::schema::Mem::Upd;
use crate::schema::Premise::{ForExp, ForMem, Plain, Under};
use crate::schema::{Constant, Exp, Form, Mem, Rule, Sort};
use word_ops::Op::{
    Add, Band, Bic, Bis, Cmpeq, Cmple, Cmplt, Cmpule, Cmpult, Extb, Extl, Extw, S4add, S8add, Sll,
    Srl, Sub, Xor,
};
use word_ops::Rel::{Eq, Sle, Slt, Ule, Ult};

/// One word.
const WORDS1: &[Sort] = &[Sort::Exp];

/// Two words.
const WORDS2: &[Sort] = &[Sort::Exp, Sort::Exp];

/// Three words.
const WORDS3: &[Sort] = &[Sort::Exp, Sort::Exp, Sort::Exp];

/// Four words.
const WORDS4: &[Sort] = &[Sort::Exp, Sort::Exp, Sort::Exp, Sort::Exp];

/// One formula.
const FORMS1: &[Sort] = &[Sort::Form];

/// Two formulas.
const FORMS2: &[Sort] = &[Sort::Form, Sort::Form];

/// Three formulas.
const FORMS3: &[Sort] = &[Sort::Form, Sort::Form, Sort::Form];

/// The first parameter, a word.
const A: Exp = Exp::Par(0);

/// The second parameter, a word.
const B: Exp = Exp::Par(1);

/// The third parameter, a word.
const C: Exp = Exp::Par(2);

/// The fourth parameter, a word.
const D: Exp = Exp::Par(3);

/// The first parameter, a memory.
const M: Mem = Mem::Par(0);

/// The first parameter, a formula.
const P: Form = Form::Par(0);

/// The second parameter, a formula.
const Q: Form = Form::Par(1);

/// The third parameter, a formula.
const R: Form = Form::Par(2);

/// The greatest word.
const MAX: Exp = Word(u64::MAX);

static CONSTANTS: [Constant; SYMBOLS as usize] = [
    // 0 add
    Constant {
        arguments: WORDS2,
        family: EXP,
    },
    // 1 sub
    Constant {
        arguments: WORDS2,
        family: EXP,
    },
    // 2 band
    Constant {
        arguments: WORDS2,
        family: EXP,
    },
    // 3 bis
    Constant {
        arguments: WORDS2,
        family: EXP,
    },
    // 4 sll
    Constant {
        arguments: WORDS2,
        family: EXP,
    },
    // 5 srl
    Constant {
        arguments: WORDS2,
        family: EXP,
    },
    // 6 cmpeq
    Constant {
        arguments: WORDS2,
        family: EXP,
    },
    // 7 cmplt
    Constant {
        arguments: WORDS2,
        family: EXP,
    },
    // 8 cmple
    Constant {
        arguments: WORDS2,
        family: EXP,
    },
    // 9 cmpult
    Constant {
        arguments: WORDS2,
        family: EXP,
    },
    // 10 cmpule
    Constant {
        arguments: WORDS2,
        family: EXP,
    },
    // 11 sel
    Constant {
        arguments: &[Sort::Mem, Sort::Exp],
        family: EXP,
    },
    // 12 upd
    Constant {
        arguments: &[Sort::Mem, Sort::Exp, Sort::Exp],
        family: MEM,
    },
    // 13 tt
    Constant {
        arguments: &[],
        family: FORM,
    },
    // 14 ff
    Constant {
        arguments: &[],
        family: FORM,
    },
    // 15 eq
    Constant {
        arguments: WORDS2,
        family: FORM,
    },
    // 16 ult
    Constant {
        arguments: WORDS2,
        family: FORM,
    },
    // 17 ule
    Constant {
        arguments: WORDS2,
        family: FORM,
    },
    // 18 slt
    Constant {
        arguments: WORDS2,
        family: FORM,
    },
    // 19 sle
    Constant {
        arguments: WORDS2,
        family: FORM,
    },
    // 20 rd
    Constant {
        arguments: WORDS1,
        family: FORM,
    },
    // 21 wr
    Constant {
        arguments: WORDS1,
        family: FORM,
    },
    // 22 and
    Constant {
        arguments: FORMS2,
        family: FORM,
    },
    // 23 or
    Constant {
        arguments: FORMS2,
        family: FORM,
    },
    // 24 imp
    Constant {
        arguments: FORMS2,
        family: FORM,
    },
    // 25 all
    Constant {
        arguments: &[Sort::ExpForm],
        family: FORM,
    },
    // 26 allm
    Constant {
        arguments: &[Sort::MemForm],
        family: FORM,
    },
    // 88 xor
    Constant {
        arguments: WORDS2,
        family: EXP,
    },
    // 89 bic
    Constant {
        arguments: WORDS2,
        family: EXP,
    },
    // 90 s4add
    Constant {
        arguments: WORDS2,
        family: EXP,
    },
    // 91 s8add
    Constant {
        arguments: WORDS2,
        family: EXP,
    },
    // 92 sra
    Constant {
        arguments: WORDS2,
        family: EXP,
    },
    // 93 extb
    Constant {
        arguments: WORDS2,
        family: EXP,
    },
    // 94 extw
    Constant {
        arguments: WORDS2,
        family: EXP,
    },
    // 95 extl
    Constant {
        arguments: WORDS2,
        family: EXP,
    },
];

/// Returns the constants 0 to 26, which formulas are made of.
pub fn constants() -> &'static [Constant]
    ensures { map constant_type result.now ≡ constant_types }
{
    &CONSTANTS
}

static CONNECTIVES: [Rule; 11] = [
    // 27 tt_i
    Rule {
        parameters: &[],
        premises: &[],
        conclusion: True,
    },
    // 28 ff_e
    Rule {
        parameters: FORMS1,
        premises: &[Plain(False)],
        conclusion: P,
    },
    // 29 and_i
    Rule {
        parameters: FORMS2,
        premises: &[Plain(P), Plain(Q)],
        conclusion: Join(And, &P, &Q),
    },
    // 30 and_l
    Rule {
        parameters: FORMS2,
        premises: &[Plain(Join(And, &P, &Q))],
        conclusion: P,
    },
    // 31 and_r
    Rule {
        parameters: FORMS2,
        premises: &[Plain(Join(And, &P, &Q))],
        conclusion: Q,
    },
    // 32 or_l
    Rule {
        parameters: FORMS2,
        premises: &[Plain(P)],
        conclusion: Join(Or, &P, &Q),
    },
    // 33 or_r
    Rule {
        parameters: FORMS2,
        premises: &[Plain(Q)],
        conclusion: Join(Or, &P, &Q),
    },
    // 34 or_e
    Rule {
        parameters: FORMS3,
        premises: &[Plain(Join(Or, &P, &Q)), Under(P, R), Under(Q, R)],
        conclusion: R,
    },
    // 35 imp_i
    Rule {
        parameters: FORMS2,
        premises: &[Under(P, Q)],
        conclusion: Join(Imp, &P, &Q),
    },
    // 36 imp_e
    Rule {
        parameters: FORMS2,
        premises: &[Plain(Join(Imp, &P, &Q)), Plain(P)],
        conclusion: Q,
    },
    // 37 em
    Rule {
        parameters: FORMS1,
        premises: &[],
        conclusion: Join(Or, &P, &Join(Imp, &P, &False)),
    },
];

/// Returns the rules 27 to 37: the connectives.
pub fn connectives() -> &'static [Rule]
    ensures { map rule_of result.now ≡ take 11 (drop 0 the_rules) }
{
    &CONNECTIVES
}

static QUANTIFIERS: [Rule; 8] = [
    // 38 all_i
    Rule {
        parameters: &[Sort::ExpForm],
        premises: &[ForExp(Of(0, &Own))],
        conclusion: All(0),
    },
    // 39 all_e
    Rule {
        parameters: &[Sort::ExpForm, Sort::Exp],
        premises: &[Plain(All(0))],
        conclusion: Of(0, &B),
    },
    // 40 allm_i
    Rule {
        parameters: &[Sort::MemForm],
        premises: &[ForMem(OfMem(0, &Mem::Own))],
        conclusion: Allm(0),
    },
    // 41 allm_e
    Rule {
        parameters: &[Sort::MemForm, Sort::Mem],
        premises: &[Plain(Allm(0))],
        conclusion: OfMem(0, &Mem::Par(1)),
    },
    // 42 eq_refl
    Rule {
        parameters: WORDS1,
        premises: &[],
        conclusion: Holds(Eq, &A, &A),
    },
    // 43 eq_sub
    Rule {
        parameters: &[Sort::ExpForm, Sort::Exp, Sort::Exp],
        premises: &[Plain(Holds(Eq, &B, &C)), Plain(Of(0, &B))],
        conclusion: Of(0, &C),
    },
    // 44 sel_same
    Rule {
        parameters: &[Sort::Mem, Sort::Exp, Sort::Exp],
        premises: &[],
        conclusion: Holds(Eq, &Sel(&Upd(&M, &B, &C), &B), &C),
    },
    // 45 sel_other
    Rule {
        parameters: &[Sort::Mem, Sort::Exp, Sort::Exp, Sort::Exp],
        premises: &[Plain(Join(Imp, &Holds(Eq, &B, &C), &False))],
        conclusion: Holds(Eq, &Sel(&Upd(&M, &B, &D), &C), &Sel(&M, &C)),
    },
];

/// Returns the rules 38 to 45: quantifiers, equality and memories.
pub fn quantifiers() -> &'static [Rule]
    ensures { map rule_of result.now ≡ take 8 (drop 11 the_rules) }
{
    &QUANTIFIERS
}

static ARITHMETIC: [Rule; 13] = [
    // 46 add_comm
    Rule {
        parameters: WORDS2,
        premises: &[],
        conclusion: Holds(Eq, &Apply(Add, &A, &B), &Apply(Add, &B, &A)),
    },
    // 47 add_assoc
    Rule {
        parameters: WORDS3,
        premises: &[],
        conclusion: Holds(
            Eq,
            &Apply(Add, &Apply(Add, &A, &B), &C),
            &Apply(Add, &A, &Apply(Add, &B, &C)),
        ),
    },
    // 48 add_zero
    Rule {
        parameters: WORDS1,
        premises: &[],
        conclusion: Holds(Eq, &Apply(Add, &A, &Word(0)), &A),
    },
    // 49 sub_add
    Rule {
        parameters: WORDS2,
        premises: &[],
        conclusion: Holds(Eq, &Apply(Add, &Apply(Sub, &A, &B), &B), &A),
    },
    // 50 sub_neg
    Rule {
        parameters: WORDS2,
        premises: &[],
        conclusion: Holds(
            Eq,
            &Apply(Sub, &A, &B),
            &Apply(Add, &A, &Apply(Sub, &Word(0), &B)),
        ),
    },
    // 51 and_comm
    Rule {
        parameters: WORDS2,
        premises: &[],
        conclusion: Holds(Eq, &Apply(Band, &A, &B), &Apply(Band, &B, &A)),
    },
    // 52 and_assoc
    Rule {
        parameters: WORDS3,
        premises: &[],
        conclusion: Holds(
            Eq,
            &Apply(Band, &Apply(Band, &A, &B), &C),
            &Apply(Band, &A, &Apply(Band, &B, &C)),
        ),
    },
    // 53 and_zero
    Rule {
        parameters: WORDS1,
        premises: &[],
        conclusion: Holds(Eq, &Apply(Band, &A, &Word(0)), &Word(0)),
    },
    // 54 and_le
    Rule {
        parameters: WORDS2,
        premises: &[],
        conclusion: Holds(Ule, &Apply(Band, &A, &B), &B),
    },
    // 55 bis_zero
    Rule {
        parameters: WORDS1,
        premises: &[],
        conclusion: Holds(Eq, &Apply(Bis, &A, &Word(0)), &A),
    },
    // 56 bis_zero_l
    Rule {
        parameters: WORDS1,
        premises: &[],
        conclusion: Holds(Eq, &Apply(Bis, &Word(0), &A), &A),
    },
    // 57 add_al
    Rule {
        parameters: WORDS2,
        premises: &[
            Plain(Holds(Eq, &Apply(Band, &A, &Word(7)), &Word(0))),
            Plain(Holds(Eq, &Apply(Band, &B, &Word(7)), &Word(0))),
        ],
        conclusion: Holds(Eq, &Apply(Band, &Apply(Add, &A, &B), &Word(7)), &Word(0)),
    },
    // 58 sll_al
    Rule {
        parameters: WORDS1,
        premises: &[],
        conclusion: Holds(
            Eq,
            &Apply(Band, &Apply(Sll, &A, &Word(3)), &Word(7)),
            &Word(0),
        ),
    },
];

/// Returns the rules 46 to 58: equations and alignment of words.
pub fn arithmetic() -> &'static [Rule]
    ensures { map rule_of result.now ≡ take 13 (drop 19 the_rules) }
{
    &ARITHMETIC
}

static ORDER: [Rule; 14] = [
    // 59 srl_mono
    Rule {
        parameters: WORDS3,
        premises: &[Plain(Holds(Ule, &A, &B))],
        conclusion: Holds(Ule, &Apply(Srl, &A, &C), &Apply(Srl, &B, &C)),
    },
    // 60 sll_mono
    Rule {
        parameters: WORDS3,
        premises: &[
            Plain(Holds(Ule, &A, &B)),
            Plain(Holds(Ule, &B, &Apply(Srl, &MAX, &C))),
        ],
        conclusion: Holds(Ule, &Apply(Sll, &A, &C), &Apply(Sll, &B, &C)),
    },
    // 61 zero_le
    Rule {
        parameters: WORDS1,
        premises: &[],
        conclusion: Holds(Ule, &Word(0), &A),
    },
    // 62 max_le
    Rule {
        parameters: WORDS1,
        premises: &[],
        conclusion: Holds(Ule, &A, &MAX),
    },
    // 63 ule_refl
    Rule {
        parameters: WORDS1,
        premises: &[],
        conclusion: Holds(Ule, &A, &A),
    },
    // 64 ule_trans
    Rule {
        parameters: WORDS3,
        premises: &[Plain(Holds(Ule, &A, &B)), Plain(Holds(Ule, &B, &C))],
        conclusion: Holds(Ule, &A, &C),
    },
    // 65 ult_ule
    Rule {
        parameters: WORDS2,
        premises: &[Plain(Holds(Ult, &A, &B))],
        conclusion: Holds(Ule, &A, &B),
    },
    // 66 lt_le
    Rule {
        parameters: WORDS3,
        premises: &[Plain(Holds(Ult, &A, &B)), Plain(Holds(Ule, &B, &C))],
        conclusion: Holds(Ult, &A, &C),
    },
    // 67 le_lt
    Rule {
        parameters: WORDS3,
        premises: &[Plain(Holds(Ule, &A, &B)), Plain(Holds(Ult, &B, &C))],
        conclusion: Holds(Ult, &A, &C),
    },
    // 68 lt_pred
    Rule {
        parameters: WORDS2,
        premises: &[Plain(Holds(Ult, &A, &B))],
        conclusion: Holds(Ule, &A, &Apply(Sub, &B, &Word(1))),
    },
    // 69 le_anti
    Rule {
        parameters: WORDS2,
        premises: &[Plain(Holds(Ule, &A, &B)), Plain(Holds(Ule, &B, &A))],
        conclusion: Holds(Eq, &A, &B),
    },
    // 70 not_lt
    Rule {
        parameters: WORDS2,
        premises: &[Plain(Join(Imp, &Holds(Ult, &A, &B), &False))],
        conclusion: Holds(Ule, &B, &A),
    },
    // 71 lt_irr
    Rule {
        parameters: WORDS1,
        premises: &[Plain(Holds(Ult, &A, &A))],
        conclusion: False,
    },
    // 72 add_le
    Rule {
        parameters: WORDS4,
        premises: &[
            Plain(Holds(Ule, &A, &C)),
            Plain(Holds(Ule, &B, &D)),
            Plain(Holds(Ule, &C, &Apply(Add, &C, &D))),
        ],
        conclusion: Holds(Ule, &Apply(Add, &A, &B), &Apply(Add, &C, &D)),
    },
];

/// Returns the rules 59 to 72: the order of words.
pub fn order() -> &'static [Rule]
    ensures { map rule_of result.now ≡ take 14 (drop 32 the_rules) }
{
    &ORDER
}

static COMPARISONS: [Rule; 15] = [
    // 73 cmp_yes
    Rule {
        parameters: WORDS2,
        premises: &[Plain(Join(Imp, &Holds(Eq, &Apply(Cmpeq, &A, &B), &Word(0)), &False))],
        conclusion: Holds(Eq, &A, &B),
    },
    // 74 cmp_yes
    Rule {
        parameters: WORDS2,
        premises: &[Plain(Join(Imp, &Holds(Eq, &Apply(Cmplt, &A, &B), &Word(0)), &False))],
        conclusion: Holds(Slt, &A, &B),
    },
    // 75 cmp_yes
    Rule {
        parameters: WORDS2,
        premises: &[Plain(Join(Imp, &Holds(Eq, &Apply(Cmple, &A, &B), &Word(0)), &False))],
        conclusion: Holds(Sle, &A, &B),
    },
    // 76 cmp_yes
    Rule {
        parameters: WORDS2,
        premises: &[Plain(Join(Imp, &Holds(Eq, &Apply(Cmpult, &A, &B), &Word(0)), &False))],
        conclusion: Holds(Ult, &A, &B),
    },
    // 77 cmp_yes
    Rule {
        parameters: WORDS2,
        premises: &[Plain(Join(Imp, &Holds(Eq, &Apply(Cmpule, &A, &B), &Word(0)), &False))],
        conclusion: Holds(Ule, &A, &B),
    },
    // 78 cmp_no
    Rule {
        parameters: WORDS2,
        premises: &[Plain(Holds(Eq, &Apply(Cmpeq, &A, &B), &Word(0)))],
        conclusion: Join(Imp, &Holds(Eq, &A, &B), &False),
    },
    // 79 cmp_no
    Rule {
        parameters: WORDS2,
        premises: &[Plain(Holds(Eq, &Apply(Cmplt, &A, &B), &Word(0)))],
        conclusion: Join(Imp, &Holds(Slt, &A, &B), &False),
    },
    // 80 cmp_no
    Rule {
        parameters: WORDS2,
        premises: &[Plain(Holds(Eq, &Apply(Cmple, &A, &B), &Word(0)))],
        conclusion: Join(Imp, &Holds(Sle, &A, &B), &False),
    },
    // 81 cmp_no
    Rule {
        parameters: WORDS2,
        premises: &[Plain(Holds(Eq, &Apply(Cmpult, &A, &B), &Word(0)))],
        conclusion: Join(Imp, &Holds(Ult, &A, &B), &False),
    },
    // 82 cmp_no
    Rule {
        parameters: WORDS2,
        premises: &[Plain(Holds(Eq, &Apply(Cmpule, &A, &B), &Word(0)))],
        conclusion: Join(Imp, &Holds(Ule, &A, &B), &False),
    },
    // 83 cmp_le1
    Rule {
        parameters: WORDS2,
        premises: &[],
        conclusion: Holds(Ule, &Apply(Cmpeq, &A, &B), &Word(1)),
    },
    // 84 cmp_le1
    Rule {
        parameters: WORDS2,
        premises: &[],
        conclusion: Holds(Ule, &Apply(Cmplt, &A, &B), &Word(1)),
    },
    // 85 cmp_le1
    Rule {
        parameters: WORDS2,
        premises: &[],
        conclusion: Holds(Ule, &Apply(Cmple, &A, &B), &Word(1)),
    },
    // 86 cmp_le1
    Rule {
        parameters: WORDS2,
        premises: &[],
        conclusion: Holds(Ule, &Apply(Cmpult, &A, &B), &Word(1)),
    },
    // 87 cmp_le1
    Rule {
        parameters: WORDS2,
        premises: &[],
        conclusion: Holds(Ule, &Apply(Cmpule, &A, &B), &Word(1)),
    },
];

/// Returns the rules 73 to 87: the operators that compare.
pub fn comparisons() -> &'static [Rule]
    ensures { map rule_of result.now ≡ take 15 (drop 46 the_rules) }
{
    &COMPARISONS
}

static LATER: [Rule; 9] = [
    // 96 xor_self
    Rule {
        parameters: WORDS1,
        premises: &[],
        conclusion: Holds(Eq, &Apply(Xor, &A, &A), &Word(0)),
    },
    // 97 bic_le
    Rule {
        parameters: WORDS2,
        premises: &[],
        conclusion: Holds(Ule, &Apply(Bic, &A, &B), &A),
    },
    // 98 s4_def
    Rule {
        parameters: WORDS2,
        premises: &[],
        conclusion: Holds(
            Eq,
            &Apply(S4add, &A, &B),
            &Apply(Add, &Apply(Sll, &A, &Word(2)), &B),
        ),
    },
    // 99 s8_def
    Rule {
        parameters: WORDS2,
        premises: &[],
        conclusion: Holds(
            Eq,
            &Apply(S8add, &A, &B),
            &Apply(Add, &Apply(Sll, &A, &Word(3)), &B),
        ),
    },
    // 100 extb_le
    Rule {
        parameters: WORDS2,
        premises: &[],
        conclusion: Holds(Ule, &Apply(Extb, &A, &B), &Word(255)),
    },
    // 101 extw_le
    Rule {
        parameters: WORDS2,
        premises: &[],
        conclusion: Holds(Ule, &Apply(Extw, &A, &B), &Word(65_535)),
    },
    // 102 extl_le
    Rule {
        parameters: WORDS2,
        premises: &[],
        conclusion: Holds(Ule, &Apply(Extl, &A, &B), &Word(4_294_967_295)),
    },
    // 103 bic_def
    Rule {
        parameters: WORDS2,
        premises: &[],
        conclusion: Holds(
            Eq,
            &Apply(Bic, &A, &B),
            &Apply(Band, &A, &Apply(Xor, &B, &MAX)),
        ),
    },
    // 104 sub_lo
    Rule {
        parameters: WORDS3,
        premises: &[Plain(Holds(Ule, &B, &A)), Plain(Holds(Ule, &C, &B))],
        conclusion: Holds(Ule, &Apply(Sub, &B, &C), &Apply(Sub, &A, &C)),
    },
];

/// Returns the rules from 96 on: the later operators, and a lower bound of a difference.
pub fn later() -> &'static [Rule]
    ensures { map rule_of result.now ≡ drop FIRST_RULES the_rules }
{
    &LATER
}

/// How many of its first arguments are parameters, for each numbered constant.
static PARAMETERS: [u8; COUNT as usize] = [
    0, 0, 0, 0, 0, 0, 0, 0, 0, 0, 0, 0, 0, 0, 0, 0, 0, 0, 0, 0, 0, 0, 0, 0, 0, 0, 0, 0, 1, 2, 2, 2,
    2, 2, 3, 2, 2, 1, 1, 2, 1, 2, 1, 3, 3, 4, 2, 3, 1, 2, 2, 2, 3, 1, 2, 1, 1, 2, 1, 3, 3, 1, 1, 1,
    3, 2, 3, 3, 2, 2, 2, 1, 4, 2, 2, 2, 2, 2, 2, 2, 2, 2, 2, 2, 2, 2, 2, 2, 0, 0, 0, 0, 0, 0, 0, 0,
    1, 2, 2, 2, 2, 2, 2, 2, 3,
];

/// Returns how many parameters each numbered constant has; symbols have none.
pub fn parameter_counts() -> &'static [u8]
    ensures { result.now ≡ parameter_counts }
{
    &PARAMETERS
}

/// The table that has a numbered constant, and its index there.
#[derive(Clone, Copy)]
pub enum Place {
    /// The symbols, which formulas are made of.
    Made(u32),
    /// The rules.
    ByRule(u32),
}

/// A stretch of numbered constants: symbols, which formulas are made of, or rules.
#[derive(Clone, Copy)]
pub struct Stretch {
    /// The number after its last.
    pub end: u32,
    /// Whether they are rules.
    pub are_rules: bool,
    /// How many constants of the other sort stand before them.
    pub others: u32,
}

/// The numbered constants, stretch by stretch.
const LAYOUT: [Stretch; 4] = [
    Stretch {
        end: FIRST_RULE,
        are_rules: false,
        others: 0,
    },
    Stretch {
        end: XOR,
        are_rules: true,
        others: FIRST_RULE,
    },
    Stretch {
        end: LATER_RULE,
        are_rules: false,
        others: FIRST_RULES,
    },
    Stretch {
        end: COUNT,
        are_rules: true,
        others: SYMBOLS,
    },
];

/// Returns the stretch of the constant with this number, or None if no constant has it.
fn stretch_of(number: u32) -> Option<Stretch>
    ensures { result ≡ stretch_of number }
{
    LAYOUT.iter().copied().find(|stretch| number < stretch.end)
}

/// Returns the place of the constant with this number.
pub fn place_of(number: u32) -> Place
    ensures { result ≡ place_of number }
{
    let Some(stretch) = stretch_of(number) else {
        return Place::ByRule(number);
    };
    let index = number.saturating_sub(stretch.others);
    if stretch.are_rules {
        Place::ByRule(index)
    } else {
        Place::Made(index)
    }
}

/// The entry of a part of the rules.
fn entry(rules: &'static [Rule], index: usize) -> Option<&'static Rule>
    ensures { option_map (λ r. rule_of r.now) result ≡ at (map rule_of rules.now) index }
{
    rules.get(index)
}

/// Returns the rule at an index of the table of rules.
pub fn rule_in(index: u32) -> Option<&'static Rule>
    ensures { option_map (λ r. rule_of r.now) result ≡ at the_rules index }
{
    let index = index as usize;
    match index {
        0..=10 => entry(connectives(), index),
        11..=18 => entry(quantifiers(), index - 11),
        19..=31 => entry(arithmetic(), index - 19),
        32..=45 => entry(order(), index - 32),
        46..=60 => entry(comparisons(), index - 46),
        _ => entry(later(), index - FIRST_RULES as usize),
    }
}

/// Returns the rule of the constant with this number: None if formulas are made of the constant,
/// and past the last.
pub fn rule_at(number: u32) -> Option<&'static Rule>
    ensures { option_map (λ r. rule_of r.now) result ≡ rule_at number }
{
    match place_of(number) {
        Place::Made(_) => None,
        Place::ByRule(index) => rule_in(index),
    }
}

/// Returns the type of a constant that formulas are made of, by its index in their table.
pub fn constant_in(index: u32) -> Option<&'static Constant>
    ensures { option_map (λ c. constant_type c.now) result ≡ at constant_types index }
{
    constants().get(index as usize)
}
