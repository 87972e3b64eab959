//! The search for registers that are live, and for what can be left out. Nothing is proved of what it
//! finds, and it may stop early: the certificate is checked.

ghost use Rattle.std.specs.Prelude.{◌<◌, length};

use crate::certificate::Certificate;
use crate::checking::written;
use crate::pairs::{Pair, pair_at};
use alpha_cfg::Code;
use alpha_words::{Insn, Reg, Rhs};
use native_code::Form;
use std::alloc::{AllocError, Global};

/// So often each index is looked at.
const MOST_SWEEPS: u32 = 16;

/// Returns the bit of a register: none of register 31.
fn bit(r: Reg) -> u32 {
    if r.number() < 31 { 1 << r.number() } else { 0 }
}

/// Returns the bits of the registers that an instruction reads.
fn reads(insn: Insn) -> u32 {
    match insn {
        Insn::Lda { rb, .. } | Insn::Ldah { rb, .. } => bit(rb),
        Insn::Ldq { rb, .. } | Insn::LdqU { rb, .. } => bit(rb),
        Insn::Stq { ra, rb, .. } => bit(ra) | bit(rb),
        Insn::Oper { ra, rhs, .. } => match rhs {
            Rhs::Reg(rb) => bit(ra) | bit(rb),
            Rhs::Lit(_) => bit(ra),
        },
        Insn::Branch { ra, .. } => bit(ra),
        Insn::Br { .. } => 0,
        Insn::Ret => 1,
    }
}

/// Returns the bit of the register that an instruction writes.
fn writes(insn: Insn) -> u32 {
    match written(insn) {
        Some(to) => bit(to),
        None => 0,
    }
}

/// Checks whether an instruction only writes a register that isn't among these.
fn is_dead_write(insn: Insn, live: u32) -> bool {
    match written(insn) {
        Some(to) => live & bit(to) == 0,
        None => false,
    }
}

/// What is known of each index while the code is looked at.
#[derive(Drop)]
struct Sweeps {
    reached: Vec<bool>,
    pairs: Vec<Option<Pair>>,
    live: Vec<u32>,
}

impl Sweeps {
    /// Begins with nothing but the first index reached, and no register live. Errors: out of memory.
    fn new(alloc: Global, code: &Code) -> Result<Sweeps, AllocError> {
        let mut reached = Vec::new(alloc);
        let mut pairs = Vec::new(alloc);
        let mut live = Vec::new(alloc);
        for i in 0..code.count() {
            reached.push(i == 0)?;
            pairs.push(pair_at(code, i))?;
            live.push(0)?;
        }
        Ok(Sweeps {
            reached,
            pairs,
            live,
        })
    }

    /// Checks whether an index is reached.
    fn is_reached(&self, i: u32) -> bool {
        match self.reached.get(i as usize) {
            Some(flag) => *flag,
            None => false,
        }
    }

    /// Returns the bits of the registers that are live at an index.
    fn live_at(&self, i: u32) -> u32 {
        match self.live.get(i as usize) {
            Some(word) => *word,
            None => 0,
        }
    }

    /// Returns the pair of the compare at an index and the branch behind it.
    fn pair(&self, i: u32) -> Option<Pair> {
        match self.pairs.get(i as usize) {
            Some(pair) => *pair,
            None => None,
        }
    }

    /// Returns the pair whose branch is at an index.
    fn pair_before(&self, i: u32) -> Option<Pair> {
        if i == 0 {
            return None;
        }
        self.pair(i - 1)
    }

    /// Notes that an index is reached.
    fn reach(&mut self, i: u32) {
        if (i as usize) < self.reached.len() {
            self.reached[i as usize] = true;
        }
    }

    /// Notes what an index leads to, if it is reached.
    fn go_on(&mut self, code: &Code, i: u32)
        requires { i < length code.now }
    {
        if !self.is_reached(i) {
            return;
        }
        let insn = code.insn(i);
        match insn {
            Insn::Branch { .. } => {
                self.reach(i + 1);
                self.reach(code.jump(i, &insn))
            }
            Insn::Br { .. } => self.reach(code.jump(i, &insn)),
            Insn::Ret => {}
            _ => self.reach(i + 1),
        }
    }

    /// Returns the bits of the registers that are live where an index leads.
    fn live_after(&self, code: &Code, i: u32) -> u32
        requires { i < length code.now }
    {
        let insn = code.insn(i);
        match insn {
            Insn::Branch { .. } => self.live_at(i + 1) | self.live_at(code.jump(i, &insn)),
            Insn::Br { .. } => self.live_at(code.jump(i, &insn)),
            Insn::Ret => 0,
            _ => self.live_at(i + 1),
        }
    }

    /// Returns the form of an index by what is live behind it.
    fn form(&self, code: &Code, i: u32) -> Form
        requires { i < length code.now }
    {
        let after = self.live_after(code, i);
        if !self.is_reached(i) {
            return Form::Gone;
        }
        if let Some(pair) = self.pair_before(i) {
            if after & bit(pair.to) == 0 {
                return Form::Joined(pair.jump);
            }
        }
        if !is_dead_write(code.insn(i), after) {
            return Form::Whole;
        }
        match self.pair(i) {
            Some(_) => Form::Compare,
            None => Form::Dead,
        }
    }

    /// Returns the bits of the registers that are live at an index by what is live behind it.
    fn live_before(&self, code: &Code, i: u32) -> u32
        requires { i < length code.now }
    {
        let after = self.live_after(code, i);
        match self.form(code, i) {
            Form::Whole | Form::Compare => after & !writes(code.insn(i)) | reads(code.insn(i)),
            Form::Dead | Form::Joined(_) => after,
            Form::Gone => 0,
        }
    }

    /// Looks at each index once, forwards, and then backwards.
    fn sweep(&mut self, code: &Code) {
        let count = code.count();
        for i in 0..count {
            self.go_on(code, i);
        }
        for k in 0..count {
            let i = count - 1 - k;
            let word = self.live_before(code, i);
            if (i as usize) < self.live.len() {
                self.live[i as usize] = word;
            }
        }
    }
}

/// Returns a certificate that is probably right. Errors: out of memory.
pub(crate) fn found(alloc: Global, code: &Code) -> Result<Certificate, AllocError> {
    let mut sweeps = Sweeps::new(alloc, code)?;
    for _ in 0..MOST_SWEEPS {
        sweeps.sweep(code);
    }
    let mut forms = Vec::new(alloc);
    let mut live = Vec::new(alloc);
    for i in 0..code.count() {
        forms.push(sweeps.form(code, i))?;
        live.push(sweeps.live_at(i))?;
    }
    Ok(Certificate { forms, live })
}
