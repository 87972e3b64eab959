//! The sequences of instructions.

ghost use Rattle.std.specs.Prelude.{◌≡◌, ◌<◌, ◌++◌, ◌∷◌, [], OnOk};
ghost use Rattle.alpha_cfg.specs.Actions as actions;
ghost use Rattle.native_steps.specs.Compares as compares;
ghost use Rattle.native_steps.specs.Places as places;
ghost use Rattle.native_steps.specs.Sequences as sequences;

use crate::places::{Place, Places, area, rax, rcx, slot};
use alpha_words::{Cond, Insn, Reg, Rhs, Tested, ToZero, cond_taken, cond_tested, cond_to_zero};
use std::alloc::AllocError;
use word_ops::Op;
use x86_words::{AluOp, Scale, ShiftOp, X86Cond, X86Insn, X86Reg};

/// Returns the condition under which a branch is taken, after the test of its register.
pub fn branch_cond(cond: Cond) -> X86Cond
    ensures { result ≡ sequences.branch_cond cond }
{
    let taken = cond_taken(cond);
    match cond_to_zero(cond) {
        ToZero::Equal => {
            if taken {
                X86Cond::Equal
            } else {
                X86Cond::NotEqual
            }
        }
        ToZero::Less => {
            if taken {
                X86Cond::Sign
            } else {
                X86Cond::NoSign
            }
        }
        ToZero::AtMost => {
            if taken {
                X86Cond::LessOrEqual
            } else {
                X86Cond::Greater
            }
        }
    }
}

/// Returns the test of a register for a condition.
fn cond_test(cond: Cond, reg: X86Reg) -> X86Insn
    ensures { result ≡ sequences.cond_test cond reg }
{
    match cond_tested(cond) {
        Tested::LowBit => X86Insn::TestImm { left: reg, imm: 1 },
        Tested::Word => X86Insn::Test {
            left: reg,
            right: reg,
        },
    }
}

/// Checks whether the operator is a difference.
fn is_difference(op: Op) -> bool
    ensures { result ≡ sequences.is_difference op }
{
    matches!(op, Op::Sub)
}

/// The register that an operator works in, and its first operand.
#[derive(Clone, Copy)]
struct Work {
    work: X86Reg,
    left: Reg,
}

impl Places {
    /// Appends the instruction that brings a register of the processor into the place of an Alpha
    /// register, if it has one. Errors: out of memory.
    pub fn keep(&self, out: &mut Vec<X86Insn>, r: Reg, from: X86Reg) -> Result<(), AllocError>
        requires { r < 31 }
        ensures { OnOk result (out.new.items
            ≡ out.old.items ++ sequences.keep_place (places.place_at self.now r) r from) }
    {
        match self.place(r) {
            Place::Register(to) => out.extend_from_slice(&[X86Insn::Mov { to, from }]),
            Place::Slot => {
                let store = X86Insn::Store {
                    base: area(),
                    disp: slot(r),
                    from,
                };
                out.extend_from_slice(&[store])
            }
            Place::Nowhere => Ok(()),
        }
    }

    /// Appends the instruction that brings rax into the place of an Alpha register, if it has one.
    /// Errors: out of memory.
    fn push_keep(&self, out: &mut Vec<X86Insn>, r: Reg) -> Result<(), AllocError>
        ensures { OnOk result (out.new.items ≡ out.old.items ++ sequences.keep self.now r) }
    {
        if r.number() == 31 {
            return Ok(());
        }
        self.keep(out, r, rax())
    }

    /// Appends what brings the word of an Alpha register into a register of the processor, if that
    /// isn't its place. Errors: out of memory.
    fn push_brought(&self, out: &mut Vec<X86Insn>, r: Reg, to: X86Reg) -> Result<(), AllocError>
        ensures { OnOk result (out.new.items ≡ out.old.items ++ sequences.brought self.now r to) }
    {
        if self.is_at(r, to) {
            return Ok(());
        }
        out.extend_from_slice(&[self.fetch(r, to)])
    }

    /// Appends what brings the word of an Alpha register to where it is read. Errors: out of memory.
    fn push_ready(&self, out: &mut Vec<X86Insn>, r: Reg, temp: X86Reg) -> Result<(), AllocError>
        ensures { OnOk result (out.new.items ≡ out.old.items ++ sequences.ready self.now r temp) }
    {
        self.push_brought(out, r, self.source(r, temp))
    }

    /// Appends what brings a result into its place. Errors: out of memory.
    fn push_settle(&self, out: &mut Vec<X86Insn>, r: Reg, work: X86Reg) -> Result<(), AllocError>
        ensures { OnOk result (out.new.items ≡ out.old.items ++ sequences.settle self.now r work) }
    {
        if self.is_at(r, work) {
            return Ok(());
        }
        self.push_keep(out, r)
    }

    /// Appends an operator on a register and an Alpha register, which is brought to where it is read.
    /// Errors: out of memory.
    fn push_onto(
        &self,
        out: &mut Vec<X86Insn>,
        op: AluOp,
        to: X86Reg,
        r: Reg,
    ) -> Result<(), AllocError>
        ensures { OnOk result (out.new.items ≡ out.old.items ++ (sequences.ready self.now r 1
            ++ X86Insn.Alu op to (sequences.source self.now r 1) ∷ [])) }
    {
        let from = self.source(r, rcx());
        self.push_ready(out, r, rcx())?;
        out.extend_from_slice(&[X86Insn::Alu { op, to, from }])
    }

    /// Appends an operator of two operands. Errors: out of memory.
    fn push_alu(
        &self,
        out: &mut Vec<X86Insn>,
        op: AluOp,
        o: Work,
        right: Rhs,
    ) -> Result<(), AllocError>
        ensures { OnOk result (out.new.items
            ≡ out.old.items ++ sequences.alu_code self.now op o.work o.left right) }
    {
        match right {
            Rhs::Lit(n) => {
                let imm = i32::from(n);
                self.push_brought(out, o.left, o.work)?;
                out.extend_from_slice(&[X86Insn::AluImm {
                    op,
                    to: o.work,
                    imm,
                }])
            }
            Rhs::Reg(r) => {
                if self.is_at(r, o.work) {
                    return self.push_onto(out, op, o.work, o.left);
                }
                let from = self.source(r, rcx());
                self.push_ready(out, r, rcx())?;
                self.push_brought(out, o.left, o.work)?;
                out.extend_from_slice(&[X86Insn::Alu {
                    op,
                    to: o.work,
                    from,
                }])
            }
        }
    }

    /// Appends an operator for which 0 and a second operand give that operand. Errors: out of memory.
    fn push_move(
        &self,
        out: &mut Vec<X86Insn>,
        op: AluOp,
        o: Work,
        right: Rhs,
    ) -> Result<(), AllocError>
        ensures { OnOk result (out.new.items
            ≡ out.old.items ++ sequences.move_code self.now op o.work o.left right) }
    {
        if o.left.number() == 31 {
            return out.extend_from_slice(&[self.fetch_rhs(right, o.work)]);
        }
        self.push_alu(out, op, o, right)
    }

    /// Appends what compares two operands. Errors: out of memory.
    fn push_cmp(&self, out: &mut Vec<X86Insn>, left: Reg, right: Rhs) -> Result<(), AllocError>
        ensures { OnOk result (out.new.items
            ≡ out.old.items ++ sequences.cmp_code self.now left right) }
    {
        let to = self.source(left, rax());
        match right {
            Rhs::Lit(n) => {
                let imm = i32::from(n);
                out.extend_from_slice(&[X86Insn::AluImm {
                    op: AluOp::Cmp,
                    to,
                    imm,
                }])
            }
            Rhs::Reg(r) => self.push_onto(out, AluOp::Cmp, to, r),
        }
    }

    /// Appends what leaves the flags of a compare. Errors: out of memory.
    pub fn append_compare(
        &self,
        out: &mut Vec<X86Insn>,
        left: Reg,
        right: Rhs,
    ) -> Result<(), AllocError>
        ensures { OnOk result (out.new.items
            ≡ out.old.items ++ compares.ready_cmp_code self.now left right) }
    {
        self.push_ready(out, left, rax())?;
        self.push_cmp(out, left, right)
    }

    /// Appends the flag of a condition on two operands. Errors: out of memory.
    fn push_compare(
        &self,
        out: &mut Vec<X86Insn>,
        cond: X86Cond,
        o: Work,
        right: Rhs,
    ) -> Result<(), AllocError>
        ensures { OnOk result (out.new.items
            ≡ out.old.items ++ sequences.compare_code self.now cond o.work o.left right) }
    {
        let set = X86Insn::Set { cond, to: rax() };
        let cut = X86Insn::MovByte {
            to: o.work,
            from: rax(),
        };
        self.push_ready(out, o.left, rax())?;
        self.push_cmp(out, o.left, right)?;
        out.extend_from_slice(&[set, cut])
    }

    /// Appends a shift. Errors: out of memory.
    fn push_shift(
        &self,
        out: &mut Vec<X86Insn>,
        op: ShiftOp,
        o: Work,
        right: Rhs,
    ) -> Result<(), AllocError>
        ensures { OnOk result (out.new.items
            ≡ out.old.items ++ sequences.shift_code self.now op o.work o.left right) }
    {
        match right {
            Rhs::Lit(n) => {
                let count = n % 64;
                self.push_brought(out, o.left, o.work)?;
                out.extend_from_slice(&[X86Insn::ShiftImm {
                    op,
                    to: o.work,
                    count,
                }])
            }
            Rhs::Reg(r) => {
                out.extend_from_slice(&[self.fetch(r, rcx())])?;
                self.push_brought(out, o.left, o.work)?;
                out.extend_from_slice(&[X86Insn::ShiftCl { op, to: o.work }])
            }
        }
    }

    /// Appends what clears the bits of a second operand. Errors: out of memory.
    fn push_bic(&self, out: &mut Vec<X86Insn>, o: Work, right: Rhs) -> Result<(), AllocError>
        ensures { OnOk result (out.new.items
            ≡ out.old.items ++ sequences.bic_code self.now o.work o.left right) }
    {
        let complement = X86Insn::AluImm {
            op: AluOp::Xor,
            to: rcx(),
            imm: -1,
        };
        let both = X86Insn::Alu {
            op: AluOp::And,
            to: o.work,
            from: rcx(),
        };
        out.extend_from_slice(&[self.fetch_rhs(right, rcx()), complement])?;
        self.push_brought(out, o.left, o.work)?;
        out.extend_from_slice(&[both])
    }

    /// Appends the sum of a multiple and a second operand. Errors: out of memory.
    fn push_scaled(
        &self,
        out: &mut Vec<X86Insn>,
        scale: Scale,
        o: Work,
        right: Rhs,
    ) -> Result<(), AllocError>
        ensures { OnOk result (out.new.items
            ≡ out.old.items ++ sequences.scaled_code self.now scale o.work o.left right) }
    {
        let to = o.work;
        let index = self.source(o.left, rax());
        self.push_ready(out, o.left, rax())?;
        match right {
            Rhs::Lit(_) => {
                let base = rcx();
                let sum = X86Insn::LeaScaled {
                    to,
                    base,
                    index,
                    scale,
                };
                out.extend_from_slice(&[self.fetch_rhs(right, rcx()), sum])
            }
            Rhs::Reg(r) => {
                let base = self.source(r, rcx());
                self.push_ready(out, r, rcx())?;
                out.extend_from_slice(&[X86Insn::LeaScaled {
                    to,
                    base,
                    index,
                    scale,
                }])
            }
        }
    }

    /// Appends the extract of bytes from a second operand's place on; `last` takes as many as are
    /// wanted. Errors: out of memory.
    fn push_extract(
        &self,
        out: &mut Vec<X86Insn>,
        last: X86Insn,
        o: Work,
        right: Rhs,
    ) -> Result<(), AllocError>
        ensures { OnOk result (out.new.items
            ≡ out.old.items ++ sequences.extract_code self.now last o.work o.left right) }
    {
        let to = o.work;
        let op = ShiftOp::Shr;
        match right {
            Rhs::Lit(n) => {
                let count = 8 * (n % 8);
                self.push_brought(out, o.left, o.work)?;
                out.extend_from_slice(&[X86Insn::ShiftImm { op, to, count }, last])
            }
            Rhs::Reg(r) => {
                let eightfold = X86Insn::ShiftImm {
                    op: ShiftOp::Shl,
                    to: rcx(),
                    count: 3,
                };
                out.extend_from_slice(&[self.fetch(r, rcx()), eightfold])?;
                self.push_brought(out, o.left, o.work)?;
                out.extend_from_slice(&[X86Insn::ShiftCl { op, to }, last])
            }
        }
    }

    /// Appends the instructions of an operator. Errors: out of memory.
    fn push_op(&self, out: &mut Vec<X86Insn>, op: Op, o: Work, right: Rhs) -> Result<(), AllocError>
        ensures { OnOk result (out.new.items
            ≡ out.old.items ++ sequences.op_code self.now op o.work o.left right) }
    {
        let to = o.work;
        let from = o.work;
        match op {
            Op::Add => self.push_move(out, AluOp::Add, o, right),
            Op::Sub => self.push_alu(out, AluOp::Sub, o, right),
            Op::Band => self.push_alu(out, AluOp::And, o, right),
            Op::Bis => self.push_move(out, AluOp::Or, o, right),
            Op::Sll => self.push_shift(out, ShiftOp::Shl, o, right),
            Op::Srl => self.push_shift(out, ShiftOp::Shr, o, right),
            Op::Cmpeq => self.push_compare(out, X86Cond::Equal, o, right),
            Op::Cmplt => self.push_compare(out, X86Cond::Less, o, right),
            Op::Cmple => self.push_compare(out, X86Cond::LessOrEqual, o, right),
            Op::Cmpult => self.push_compare(out, X86Cond::Below, o, right),
            Op::Cmpule => self.push_compare(out, X86Cond::BelowOrEqual, o, right),
            Op::Xor => self.push_alu(out, AluOp::Xor, o, right),
            Op::Bic => self.push_bic(out, o, right),
            Op::S4add => self.push_scaled(out, Scale::Four, o, right),
            Op::S8add => self.push_scaled(out, Scale::Eight, o, right),
            Op::Sra => self.push_shift(out, ShiftOp::Sar, o, right),
            Op::Extb => self.push_extract(out, X86Insn::MovByte { to, from }, o, right),
            Op::Extw => self.push_extract(out, X86Insn::MovTwo { to, from }, o, right),
            Op::Extl => self.push_extract(out, X86Insn::MovFour { to, from }, o, right),
        }
    }

    /// Appends the sum of a register and a displacement. Errors: out of memory.
    fn push_sum(
        &self,
        out: &mut Vec<X86Insn>,
        work: X86Reg,
        base: Reg,
        disp: i32,
    ) -> Result<(), AllocError>
        ensures { OnOk result (out.new.items
            ≡ out.old.items ++ sequences.sum_code self.now work base disp) }
    {
        if base.number() == 31 {
            return out.extend_from_slice(&[X86Insn::MovImm {
                to: work,
                imm: disp,
            }]);
        }
        let from = self.source(base, rax());
        self.push_ready(out, base, rax())?;
        out.extend_from_slice(&[X86Insn::Lea {
            to: work,
            base: from,
            disp,
        }])
    }

    /// Appends the instructions of a computed sum, which goes to the place of an Alpha register. Errors:
    /// out of memory.
    fn push_summed(
        &self,
        out: &mut Vec<X86Insn>,
        to: Reg,
        base: Reg,
        disp: i32,
    ) -> Result<(), AllocError>
        ensures { OnOk result (out.new.items
            ≡ out.old.items ++ sequences.computed_code self.now to (actions.Sum base disp)) }
    {
        self.push_sum(out, self.target(to), base, disp)?;
        self.push_settle(out, to, self.target(to))
    }

    /// Appends the instructions of an operator, whose result goes to the place of an Alpha register.
    /// Errors: out of memory.
    fn push_applied(
        &self,
        out: &mut Vec<X86Insn>,
        op: Op,
        to: Reg,
        left: Reg,
        right: Rhs,
    ) -> Result<(), AllocError>
        ensures { OnOk result (out.new.items ≡ out.old.items
            ++ sequences.computed_code self.now to (actions.Applied op left right)) }
    {
        let mut work = self.target(to);
        if is_difference(op) && self.has_second(&right, work) {
            work = rax();
        }
        self.push_op(out, op, Work { work, left }, right)?;
        self.push_settle(out, to, work)
    }

    /// Appends the load of the quadword at a register and a displacement. Errors: out of memory.
    fn push_load(
        &self,
        out: &mut Vec<X86Insn>,
        to: Reg,
        base: Reg,
        disp: i32,
    ) -> Result<(), AllocError>
        ensures { OnOk result (out.new.items
            ≡ out.old.items ++ sequences.action_code self.now (actions.Load to base disp)) }
    {
        let work = self.target(to);
        let load = X86Insn::Load {
            to: work,
            base: self.source(base, rcx()),
            disp,
        };
        self.push_ready(out, base, rcx())?;
        out.extend_from_slice(&[load])?;
        self.push_settle(out, to, work)
    }

    /// Appends the load of the quadword around the byte at a register and a displacement. Errors: out
    /// of memory.
    fn push_load_around(
        &self,
        out: &mut Vec<X86Insn>,
        to: Reg,
        base: Reg,
        disp: i32,
    ) -> Result<(), AllocError>
        ensures { OnOk result (out.new.items
            ≡ out.old.items ++ sequences.action_code self.now (actions.LoadAround to base disp)) }
    {
        let work = self.target(to);
        let sum = X86Insn::Lea {
            to: rcx(),
            base: self.source(base, rcx()),
            disp,
        };
        let align = X86Insn::AluImm {
            op: AluOp::And,
            to: rcx(),
            imm: -8,
        };
        let load = X86Insn::Load {
            to: work,
            base: rcx(),
            disp: 0,
        };
        self.push_ready(out, base, rcx())?;
        out.extend_from_slice(&[sum, align, load])?;
        self.push_settle(out, to, work)
    }

    /// Appends the instructions of a store. Errors: out of memory.
    fn push_store(
        &self,
        out: &mut Vec<X86Insn>,
        from: Reg,
        base: Reg,
        disp: i32,
    ) -> Result<(), AllocError>
        ensures { OnOk result (out.new.items
            ≡ out.old.items ++ sequences.action_code self.now (actions.Store from base disp)) }
    {
        let store = X86Insn::Store {
            base: self.source(base, rcx()),
            disp,
            from: self.source(from, rax()),
        };
        self.push_ready(out, base, rcx())?;
        self.push_ready(out, from, rax())?;
        out.extend_from_slice(&[store])
    }

    /// Appends the instructions that set the flags for a branch. Errors: out of memory.
    fn push_test(&self, out: &mut Vec<X86Insn>, cond: Cond, r: Reg) -> Result<(), AllocError>
        ensures { OnOk result (out.new.items
            ≡ out.old.items ++ sequences.test_code self.now (actions.When cond r)) }
    {
        let test = cond_test(cond, self.source(r, rax()));
        self.push_ready(out, r, rax())?;
        out.extend_from_slice(&[test])
    }

    /// Appends the sequence of an Alpha instruction, without the jumps of branches and returns.
    /// Errors: out of memory.
    pub fn append(&self, out: &mut Vec<X86Insn>, insn: Insn) -> Result<(), AllocError>
        ensures { OnOk result (out.new.items ≡ out.old.items ++ sequences.insn_code self.now insn) }
    {
        match insn {
            Insn::Lda { ra, rb, disp } => self.push_summed(out, ra, rb, i32::from(disp)),
            Insn::Ldah { ra, rb, disp } => {
                self.push_summed(out, ra, rb, i32::from(disp) * 65_536)
            }
            Insn::Ldq { ra, rb, disp } => self.push_load(out, ra, rb, i32::from(disp)),
            Insn::LdqU { ra, rb, disp } => self.push_load_around(out, ra, rb, i32::from(disp)),
            Insn::Stq { ra, rb, disp } => self.push_store(out, ra, rb, i32::from(disp)),
            Insn::Oper { op, ra, rhs, rc } => self.push_applied(out, op, rc, ra, rhs),
            Insn::Branch { cond, ra, .. } => self.push_test(out, cond, ra),
            Insn::Br { .. } | Insn::Ret => Ok(()),
        }
    }
}
