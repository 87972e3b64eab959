//! The check of a certificate.

ghost use Rattle.std.specs.Prelude.{◌≡◌, ◌≢◌, ℕ, ◌<◌, ◌^◌, length, slice_get, true, false};
ghost use Rattle.alpha_cfg.specs.Actions.{action_of};
ghost use Rattle.native_code.specs.Lives as lives;
ghost use Rattle.native_code.specs.Lives.{form_at};
ghost use Rattle.native_lives.specs.Certificates.{lean_of, live_at};
ghost use Rattle.native_lives.specs.Inside.Checks.{Flows, FitsAt, IsBehindCompare, IsCompare, IsRightAt, LeadsRight, LeadsRightTo};

use crate::certificate::Certificate;
use crate::pairs::pair_at;
use alpha_cfg::Code;
use alpha_words::{Insn, Reg, Rhs};
use native_code::Form;
use x86_words::X86Cond;

/// Returns the register that an instruction writes.
pub(crate) fn written(insn: Insn) -> Option<Reg>
    ensures { result ≡ lives.written (action_of insn) }
{
    match insn {
        Insn::Lda { ra, .. } | Insn::Ldah { ra, .. } => Some(ra),
        Insn::Ldq { ra, .. } | Insn::LdqU { ra, .. } => Some(ra),
        Insn::Oper { rc, .. } => Some(rc),
        Insn::Stq { .. } | Insn::Branch { .. } | Insn::Br { .. } | Insn::Ret => None,
    }
}

/// Checks whether two conditions are the same.
fn is_same(one: X86Cond, other: X86Cond) -> bool
    ensures { result ≡ true → one ≡ other }
{
    one == other
}

impl Certificate {
    /// Checks whether a register is live at an index, or is register 31.
    fn may_read(&self, i: u32, r: Reg) -> bool
        ensures { result ≡ true
            → lives.IsLive (lean_of self.now.forms.items self.now.live.items) i r }
    {
        r.number() == 31 || self.is_live(i, r.number())
    }

    /// Checks the register of a second operand.
    fn may_read_operand(&self, i: u32, rhs: Rhs) -> bool
        ensures { result ≡ true
            → lives.RhsIsLive (lean_of self.now.forms.items self.now.live.items) i rhs }
    {
        match rhs {
            Rhs::Reg(r) => self.may_read(i, r),
            Rhs::Lit(_) => true,
        }
    }

    /// Checks whether the registers that an instruction reads are live at its index.
    fn reads_live(&self, i: u32, insn: Insn) -> bool
        ensures { result ≡ true → lives.ReadsLive
            (lean_of self.now.forms.items self.now.live.items) i (action_of insn) }
    {
        match insn {
            Insn::Lda { rb, .. } => self.may_read(i, rb),
            Insn::Ldah { rb, .. } => self.may_read(i, rb),
            Insn::Ldq { rb, .. } => self.may_read(i, rb),
            Insn::LdqU { rb, .. } => self.may_read(i, rb),
            Insn::Stq { ra, rb, .. } => self.may_read(i, ra) && self.may_read(i, rb),
            Insn::Oper { ra, rhs, .. } => self.may_read(i, ra) && self.may_read_operand(i, rhs),
            Insn::Branch { ra, .. } => self.may_read(i, ra),
            Insn::Br { .. } => true,
            Insn::Ret => self.may_read(i, Reg::new(0)),
        }
    }

    /// Checks whether what an instruction writes is dead after it.
    fn is_dead_write(&self, i: u32, insn: Insn) -> bool
        requires { i < 2 ^ 20 }
        ensures { result ≡ true
            → lives.IsDeadWrite (lean_of self.now.forms.items self.now.live.items) i insn }
    {
        match written(insn) {
            Some(to) => !self.is_live(i + 1, to.number()),
            None => false,
        }
    }

    /// Checks whether the compare at an index is joined to the branch behind it.
    fn is_compare(&self, code: &Code, i: u32) -> bool
        requires { i < length code.now }
        ensures { result ≡ true
            → IsCompare (lean_of self.now.forms.items self.now.live.items) code.now i }
    {
        let _insn = code.insn(i); // tells the prover that the index is small
        let Some(pair) = pair_at(code, i) else {
            return false;
        };
        let Form::Joined(jump) = self.form(i + 1) else {
            return false;
        };
        is_same(jump, pair.jump) && !self.is_live(i + 1, pair.to.number())
    }

    /// Checks whether a compare that is joined is at the index before.
    fn is_joined(&self, i: u32) -> bool
        ensures { result ≡ true
            → IsBehindCompare (lean_of self.now.forms.items self.now.live.items) i }
    {
        i > 0 && matches!(self.form(i - 1), Form::Compare)
    }

    /// Checks whether the form of an index fits its instruction.
    fn fits(&self, code: &Code, i: u32) -> bool
        requires { i < length code.now }
        ensures { result ≡ true → FitsAt (lean_of self.now.forms.items self.now.live.items)
            code.now i (slice_get code.now i) }
    {
        let insn = code.insn(i);
        match self.form(i) {
            Form::Whole => self.reads_live(i, insn),
            Form::Dead => self.is_dead_write(i, insn),
            Form::Compare => self.reads_live(i, insn) && self.is_compare(code, i),
            Form::Joined(_) => self.is_joined(i),
            Form::Gone => true,
        }
    }

    /// Checks whether a register that is live at an index, and isn't written, is live before.
    fn flows(&self, i: u32, insn: &Insn, j: u32, r: u32) -> bool
        ensures { result ≡ true
            → Flows (lean_of self.now.forms.items self.now.live.items) i insn.now j r }
    {
        if !self.is_live(j, r) || self.is_live(i, r) {
            return true;
        }
        match written(*insn) {
            Some(to) => to.number() == r,
            None => false,
        }
    }

    /// Checks that of each register.
    fn flows_all(&self, i: u32, insn: &Insn, j: u32) -> bool
        ensures { result ≡ true
            → (r : ℕ) → Flows (lean_of self.now.forms.items self.now.live.items) i insn.now j r }
    {
        for r in 0..31 {
            if !self.flows(i, insn, j, r) {
                return false;
            }
        }
        true
    }

    /// Checks whether an index is left out.
    fn is_gone(&self, i: u32) -> bool
        ensures gone { result ≡ true
            → form_at (lean_of self.now.forms.items self.now.live.items) i ≡ Form.Gone }
        ensures kept { result ≡ false
            → form_at (lean_of self.now.forms.items self.now.live.items) i ≢ Form.Gone }
    {
        matches!(self.form(i), Form::Gone)
    }

    /// Checks whether an instruction may lead to an index: that isn't left out, and what is live there
    /// and isn't written is live before.
    fn leads_right_to(&self, i: u32, insn: &Insn, j: u32) -> bool
        ensures { result ≡ true
            → LeadsRightTo (lean_of self.now.forms.items self.now.live.items) i insn.now j }
    {
        self.flows_all(i, insn, j) && !self.is_gone(j)
    }

    /// Checks that of each index to which an instruction leads.
    fn leads_right(&self, code: &Code, i: u32) -> bool
        requires { i < length code.now }
        ensures { result ≡ true → LeadsRight (lean_of self.now.forms.items self.now.live.items)
            i (slice_get code.now i) }
    {
        let insn = code.insn(i);
        match insn {
            Insn::Branch { .. } => {
                self.leads_right_to(i, &insn, i + 1)
                    && self.leads_right_to(i, &insn, code.jump(i, &insn))
            }
            Insn::Br { .. } => self.leads_right_to(i, &insn, code.jump(i, &insn)),
            Insn::Ret => true,
            Insn::Lda { .. } | Insn::Ldah { .. } | Insn::Ldq { .. } | Insn::LdqU { .. } => {
                self.leads_right_to(i, &insn, i + 1)
            }
            Insn::Stq { .. } | Insn::Oper { .. } => self.leads_right_to(i, &insn, i + 1),
        }
    }

    /// Checks whether the certificate is right at an index, if that isn't left out.
    fn is_right_at(&self, code: &Code, i: u32) -> bool
        requires { i < length code.now }
        ensures { result ≡ true
            → IsRightAt (lean_of self.now.forms.items self.now.live.items) code.now i }
    {
        self.is_gone(i) || self.fits(code, i) && self.leads_right(code, i)
    }

    /// Checks whether the certificate is right at each index.
    fn is_right_everywhere(&self, code: &Code) -> bool
        ensures { result ≡ true → (i : ℕ) → IsRightAt
            (lean_of self.now.forms.items self.now.live.items) code.now i }
    {
        for i in 0..code.count() {
            if !self.is_right_at(code, i) {
                return false;
            }
        }
        true
    }

    /// Checks whether the certificate is right.
    pub(crate) fn is_right(&self, code: &Code) -> bool
        ensures { result ≡ true
            → lives.IsLean (lean_of self.now.forms.items self.now.live.items) code.now }
    {
        self.is_right_everywhere(code) && !self.is_gone(0)
    }
}
