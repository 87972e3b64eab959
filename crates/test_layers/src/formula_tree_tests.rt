//! Rows of substitution, and formulas 4,096 high on an ordinary stack.

ghost use Rattle.std.specs.Prelude.{◌≡◌, IfOk};
ghost use Rattle.word_ops.specs.declared.Op.TheVariants.{Add};
ghost use Rattle.word_ops.specs.declared.Rel.TheVariants.{Eq};
ghost use Rattle.formula_tree.specs.Formulas.{EReg, EVar, ELit, EOp, FRel, FAll};
ghost use Rattle.formula_tree.specs.Sizes.{binders, HasRoomExp};
ghost use Rattle.formula_tree.specs.Views.{exp_view, form_view};

use formula_tree::{Exp, Form, MemExp};
use std::alloc::{AllocError, Global};
use std::test::Fail;
use word_ops::{Op, Rel};

const HIGHEST: u32 = 4_096;

/// The formula with the expression for r1.
fn with_r1(alloc: Global, form: &Form, put: Exp) -> Result<Form, AllocError>
    requires { HasRoomExp (binders (form_view form.now)) 0 (exp_view put) }
{
    let mut regs = Vec::new(alloc);
    regs.push(Exp::Reg(0))?;
    regs.push(put)?;
    for r in 2..31 {
        regs.push(Exp::Reg(r))?;
    }
    form.subst_regs(alloc, &regs, &MemExp::Mem)
}

/// The formula with the expression for the steps that are left, and each register for itself.
fn with_left(alloc: Global, form: &Form, put: Exp) -> Result<Form, AllocError>
    requires { HasRoomExp (binders (form_view form.now)) 0 (exp_view put) }
{
    let mut regs = Vec::new(alloc);
    for r in 0..31 {
        regs.push(Exp::Reg(r))?;
    }
    regs.push(put)?;
    form.subst_regs(alloc, &regs, &MemExp::Mem)
}

/// `(add r1 1)`
fn sum(alloc: Global) -> Result<Exp, AllocError>
    ensures { IfOk result (λ e. exp_view e ≡ EOp Add (EReg 1) (ELit 1)) }
{
    Exp::oper(alloc, Op::Add, Exp::Reg(1), Exp::Lit(1))
}

/// `(all i (eq a i))`
fn equals_each(alloc: Global, a: Exp) -> Result<Form, AllocError>
    ensures { IfOk result (λ f. form_view f ≡ FAll (FRel Eq (exp_view a) (EVar 0))) }
{
    Form::all(alloc, Form::Rel(Rel::Eq, a, Exp::Var(0)))
}

/// Whether the expression `put` for r1 makes `(all i (eq want i))` of `(all i (eq r1 i))`.
fn becomes(alloc: Global, put: Exp, want: Exp) -> Result<bool, AllocError>
    requires { HasRoomExp 1 0 (exp_view put) }
{
    let form = equals_each(alloc, Exp::Reg(1))?;
    let form = with_r1(alloc, &form, put)?;
    Ok(form == equals_each(alloc, want)?)
}

/// For r1 a sum of r1, and the variable of a quantifier outside.
#[test]
fn nothing_is_captured(rt: HostRuntime) -> Result<(), Fail> {
    let alloc = rt.alloc();
    assert!(rt; becomes(alloc, sum(alloc)?, sum(alloc)?)?);
    assert!(rt; becomes(alloc, Exp::Var(0), Exp::Var(1))?);
    Ok(())
}

/// Whether the expression `put` for the steps that are left makes `(all i (eq want i))` of
/// `(all i (eq of i))`.
fn becomes_with_left(alloc: Global, of: Exp, put: Exp, want: Exp) -> Result<bool, AllocError>
    requires { HasRoomExp 1 0 (exp_view put) }
{
    let form = equals_each(alloc, of)?;
    let form = with_left(alloc, &form, put)?;
    Ok(form == equals_each(alloc, want)?)
}

/// A sum of r1 and the variable of a quantifier outside, for the steps that are left.
#[test]
fn left_is_put(rt: HostRuntime) -> Result<(), Fail> {
    let alloc = rt.alloc();
    assert!(rt; becomes_with_left(alloc, Exp::Left, sum(alloc)?, sum(alloc)?)?);
    assert!(rt; becomes_with_left(alloc, Exp::Left, Exp::Var(0), Exp::Var(1))?);
    Ok(())
}

/// Whether 31 expressions leave `(all i (eq left i))` as it is.
fn keeps_left(alloc: Global) -> Result<bool, AllocError> {
    let form = equals_each(alloc, Exp::Left)?;
    Ok(with_r1(alloc, &form, Exp::Lit(5))? == form)
}

/// What is put for the steps that are left is put for no register; of 31 expressions none is.
#[test]
fn register_31_stays_zero(rt: HostRuntime) -> Result<(), Fail> {
    let alloc = rt.alloc();
    assert!(rt; becomes_with_left(alloc, Exp::Reg(30), Exp::Lit(5), Exp::Reg(30))?);
    assert!(rt; becomes_with_left(alloc, Exp::Reg(31), Exp::Lit(5), Exp::Lit(0))?);
    assert!(rt; keeps_left(alloc)?);
    Ok(())
}

/// Quantifiers over an equation, as high as a formula may be.
fn quantified(alloc: Global) -> Result<Form, AllocError> {
    let mut form = Form::Rel(Rel::Eq, Exp::Reg(1), Exp::Var(0));
    for _ in 2..HIGHEST {
        form = Form::all(alloc, form)?;
    }
    Ok(form)
}

/// Implications to the left, as high as a formula may be.
fn implied(alloc: Global) -> Result<Form, AllocError> {
    let mut form = Form::Rel(Rel::Eq, Exp::Reg(1), Exp::Lit(0));
    for _ in 2..HIGHEST {
        form = Form::imp(alloc, form, Form::True)?;
    }
    Ok(form)
}

/// A relation of sums, as high as a formula may be.
fn compared(alloc: Global) -> Result<Form, AllocError> {
    let mut sum = Exp::Reg(1);
    for _ in 2..HIGHEST {
        sum = Exp::oper(alloc, Op::Add, sum, Exp::Lit(1))?;
    }
    Ok(Form::Rel(Rel::Ult, sum, Exp::Lit(0)))
}

/// Whether the formula is one higher than the highest with an operation for r1.
fn is_raised(alloc: Global, form: Form) -> Result<bool, AllocError> {
    let put = Exp::oper(alloc, Op::Sub, Exp::Reg(2), Exp::Lit(1))?;
    Ok(with_r1(alloc, &form, put)?.height() == HIGHEST + 1)
}

/// How high these are themselves is in rows of texts (test_tables: `texts.txt`).
#[test]
fn the_highest_are_raised(rt: HostRuntime) -> Result<(), Fail> {
    let alloc = rt.alloc();
    assert!(rt; is_raised(alloc, quantified(alloc)?)?);
    assert!(rt; is_raised(alloc, implied(alloc)?)?);
    assert!(rt; is_raised(alloc, compared(alloc)?)?);
    Ok(())
}
