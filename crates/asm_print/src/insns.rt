//! A printer of instructions.

ghost use Rattle.std.specs.Prelude.{◌≡◌, ◌+◌, ◌^◌, ◌++◌, ◌∷◌, [], OnOk, Some, pos, ◌+ℤ◌};
ghost use Rattle.std.specs.Prelude.{codes, decimal};
ghost use Rattle.std.specs.Fmt.{signed_decimal};
ghost use Rattle.alpha_words.specs.Lawful.{target_of};
ghost use Rattle.alpha_cfg.specs.Flow.{InsideOf, index_of};
ghost use Rattle.alpha_words.specs.Conditions.{cond_mnemonic};
ghost use Rattle.asm_print.specs.Printing.{label_text, register_text, rhs_text, target_text};
ghost use Rattle.asm_print.specs.Printing.{memory_text, operate_text, branch_text};
ghost use Rattle.asm_print.specs.Printing.{with_operands, insn_text};

use alpha_words::{Cond, Format, Insn, Reg, Rhs, cond_mnemonic, memory_mnemonic};
use itoa::Buffer;
use std::alloc::AllocError;
use word_ops::op_mnemonic;

fn push_number(out: &mut Vec<u8>, n: u32) -> Result<(), AllocError>
    ensures { OnOk result (out.new.items ≡ out.old.items ++ decimal n) }
{
    let mut buffer = Buffer::new();
    out.extend_from_slice(buffer.format(n).as_bytes())
}

fn push_displacement(out: &mut Vec<u8>, disp: i16) -> Result<(), AllocError>
    ensures { OnOk result (out.new.items ≡ out.old.items ++ signed_decimal disp) }
{
    let mut buffer = Buffer::new();
    out.extend_from_slice(buffer.format(disp).as_bytes())
}

fn push_register(out: &mut Vec<u8>, reg: Reg) -> Result<(), AllocError>
    ensures { OnOk result (out.new.items ≡ out.old.items ++ register_text reg) }
{
    out.push(b'r')?;
    push_number(out, reg.number())
}

fn push_rhs(out: &mut Vec<u8>, rhs: Rhs) -> Result<(), AllocError>
    ensures { OnOk result (out.new.items ≡ out.old.items ++ rhs_text rhs) }
{
    match rhs {
        Rhs::Reg(reg) => push_register(out, reg),
        Rhs::Lit(n) => push_number(out, u32::from(n)),
    }
}

/// Appends the label of an index: `L` and the index. Errors: out of memory; what was appended then
/// is unspecified.
pub fn push_label(out: &mut Vec<u8>, index: u32) -> Result<(), AllocError>
    ensures { OnOk result (out.new.items ≡ out.old.items ++ label_text index) }
{
    out.push(b'L')?;
    push_number(out, index)
}

/// Appends the label of the target of a branch at `index`.
fn push_target(out: &mut Vec<u8>, index: u32, disp: i32) -> Result<(), AllocError>
    requires { InsideOf (2 ^ 32) (Some (pos (index + 1) +ℤ disp)) }
    ensures { OnOk result (out.new.items
        ≡ out.old.items ++ target_text (index_of (pos (index + 1) +ℤ disp))) }
{
    push_label(out, (i64::from(index) + 1 + i64::from(disp)) as u32)
}

fn push_mnemonic(out: &mut Vec<u8>, mnemonic: &str) -> Result<(), AllocError>
    ensures { OnOk result (out.new.items ≡ (out.old.items ++ mnemonic.now) ++ (32 ∷ [])) }
{
    out.extend_from_slice(mnemonic.as_bytes())?;
    out.push(b' ')?;
    Ok(())
}

/// Appends the base register of an access, in parentheses.
fn push_base(out: &mut Vec<u8>, rb: Reg) -> Result<(), AllocError>
    ensures { OnOk result (out.new.items
        ≡ out.old.items ++ (40 ∷ (register_text rb ++ (41 ∷ [])))) }
{
    out.push(b'(')?;
    push_register(out, rb)?;
    out.push(b')')?;
    Ok(())
}

fn push_memory(
    out: &mut Vec<u8>,
    mnemonic: &str,
    ra: Reg,
    rb: Reg,
    disp: i16,
) -> Result<(), AllocError>
    ensures { OnOk result (out.new.items
        ≡ out.old.items ++ with_operands mnemonic.now (memory_text ra rb disp)) }
{
    push_mnemonic(out, mnemonic)?;
    push_register(out, ra)?;
    out.push(b',')?;
    push_displacement(out, disp)?;
    push_base(out, rb)
}

fn push_operate(
    out: &mut Vec<u8>,
    mnemonic: &str,
    ra: Reg,
    rhs: Rhs,
    rc: Reg,
) -> Result<(), AllocError>
    ensures { OnOk result (out.new.items
        ≡ out.old.items ++ with_operands mnemonic.now (operate_text ra rhs rc)) }
{
    push_mnemonic(out, mnemonic)?;
    push_register(out, ra)?;
    out.push(b',')?;
    push_rhs(out, rhs)?;
    out.push(b',')?;
    push_register(out, rc)
}

/// Appends a conditional branch at index `index`.
fn push_branch(
    out: &mut Vec<u8>,
    index: u32,
    cond: Cond,
    ra: Reg,
    disp: i32,
) -> Result<(), AllocError>
    requires { InsideOf (2 ^ 32) (Some (pos (index + 1) +ℤ disp)) }
    ensures { OnOk result (out.new.items ≡ out.old.items ++ with_operands (cond_mnemonic cond)
        (branch_text ra (index_of (pos (index + 1) +ℤ disp)))) }
{
    push_mnemonic(out, cond_mnemonic(cond))?;
    push_register(out, ra)?;
    out.push(b',')?;
    push_target(out, index, disp)
}

fn push_br(out: &mut Vec<u8>, index: u32, disp: i32) -> Result<(), AllocError>
    requires { InsideOf (2 ^ 32) (Some (pos (index + 1) +ℤ disp)) }
    ensures { OnOk result (out.new.items ≡ out.old.items ++ with_operands (codes "br")
        (target_text (index_of (pos (index + 1) +ℤ disp)))) }
{
    push_mnemonic(out, "br")?;
    push_target(out, index, disp)
}

/// Appends the text of the instruction at `index` of code, as a source has it: `ldq r1,8(r16)`,
/// `subq r1,255,r3`, or `beq r1,L7` with the label of the branch's target index, which must have 32
/// bits. Errors: out of memory; what was appended then is unspecified.
pub fn push_insn(out: &mut Vec<u8>, index: u32, insn: Insn) -> Result<(), AllocError>
    requires { InsideOf (2 ^ 32) (target_of index insn) }
    ensures { OnOk result (out.new.items ≡ out.old.items ++ insn_text index insn) }
{
    match insn.format() {
        Format::Memory { op, ra, rb, disp } => push_memory(out, memory_mnemonic(op), ra, rb, disp),
        Format::Operate { op, ra, rhs, rc } => push_operate(out, op_mnemonic(op), ra, rhs, rc),
        Format::Branch { cond, ra, disp } => push_branch(out, index, cond, ra, disp),
        Format::Br { disp } => push_br(out, index, disp),
        Format::Ret => out.extend_from_slice(b"ret"),
    }
}
