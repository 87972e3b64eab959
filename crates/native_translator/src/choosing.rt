//! Places for the registers that code reads.

ghost use Rattle.std.specs.Prelude.{◌≡◌, ◌<◌, set, true, if◌then◌else◌};
ghost use Rattle.alpha_cfg.specs.Actions.{action_of};
ghost use Rattle.native_steps.specs.Places.{IsSomewhere, is_somewhere, place_at};
ghost use Rattle.native_steps.specs.Sequences.{ReadsPlaced, RhsIsPlaced};
ghost use Rattle.native_code.specs.Calls as calls;
ghost use Rattle.native_code.specs.Calls.{ArePlacesOf};
ghost use Rattle.native_lives.specs.Certificates.{lean_of};
ghost use Rattle.native_translator.specs.Inside.Parts.{KeepsPlaces};

use alpha_cfg::Code;
use alpha_words::{Insn, Reg, Rhs};
use native_code::Form;
use native_lives::Certificate;
use native_steps::{Place, Places, is_callee_saved};
use x86_words::X86Reg;

/// Assigns an Alpha register to the first free register of the processor that the caller wants back,
/// or doesn't. Returns false if there is none; then nothing changes.
fn assign_register(places: &mut Places, r: Reg, saved: bool) -> bool
    requires { r < 31 }
    ensures placed { result ≡ true → IsSomewhere places.new r }
    ensures kept { KeepsPlaces places.old places.new }
{
    places.laws();
    for number in 0..16 {
        let to = X86Reg::new(number);
        if is_callee_saved(to) == saved && places.assign(r, to) {
            return true;
        }
    }
    false
}

/// Assigns an Alpha register to a register of the processor, first to one that a function needn't
/// keep, or else to the area.
fn assign(places: &mut Places, r: Reg)
    requires { r < 31 }
    ensures placed { IsSomewhere places.new r }
    ensures kept { KeepsPlaces places.old places.new }
{
    if assign_register(places, r, false) {
        return;
    }
    if assign_register(places, r, true) {
        return;
    }
    places.laws();
    places.assign_slot(r);
}

/// Gives a register a place, if it has none.
fn place_register(places: &mut Places, r: Reg)
    ensures placed { IsSomewhere places.new r }
    ensures kept { KeepsPlaces places.old places.new }
{
    if r.number() == 31 {
        return;
    }
    match places.place(r) {
        Place::Nowhere => assign(places, r),
        Place::Register(_) | Place::Slot => {}
    }
}

/// Gives the register of a second operand a place.
fn place_operand(places: &mut Places, rhs: Rhs)
    ensures placed { RhsIsPlaced places.new rhs }
    ensures kept { KeepsPlaces places.old places.new }
{
    match rhs {
        Rhs::Reg(r) => place_register(places, r),
        Rhs::Lit(_) => {}
    }
}

/// Gives the registers that an instruction reads places.
fn place_reads(places: &mut Places, insn: Insn)
    ensures placed { ReadsPlaced places.new (action_of insn) }
    ensures kept { KeepsPlaces places.old places.new }
{
    match insn {
        Insn::Lda { rb, .. } => place_register(places, rb),
        Insn::Ldah { rb, .. } => place_register(places, rb),
        Insn::Ldq { rb, .. } => place_register(places, rb),
        Insn::LdqU { rb, .. } => place_register(places, rb),
        Insn::Stq { ra, rb, .. } => {
            place_register(places, ra);
            place_register(places, rb)
        }
        Insn::Oper { ra, rhs, .. } => {
            place_register(places, ra);
            place_operand(places, rhs)
        }
        Insn::Branch { ra, .. } => place_register(places, ra),
        Insn::Br { .. } => {}
        Insn::Ret => place_register(places, Reg::new(0)),
    }
}

/// Checks whether native code reads what an instruction of this form reads.
fn reads_operands(form: Form) -> bool
    ensures { result ≡ calls.reads_operands form }
{
    matches!(form, Form::Whole | Form::Compare)
}

/// Gives the registers that native code reads of an instruction of this form places.
fn place_form_reads(places: &mut Places, form: Form, insn: Insn)
    ensures placed { calls.reads_operands form ≡ true
        → ReadsPlaced places.new (action_of insn) }
    ensures kept { KeepsPlaces places.old places.new }
{
    if reads_operands(form) {
        place_reads(places, insn);
    }
}

/// Returns lawful places, one for each register that native code reads.
pub(crate) fn choose(code: &Code, lives: &Certificate) -> Places
    ensures { ArePlacesOf result (lean_of lives.now.forms.items lives.now.live.items) code.now }
{
    let mut places = Places::nowhere();
    for i in 0..code.count() {
        place_form_reads(&mut places, lives.form(i), code.insn(i));
    }
    places.laws();
    places
}
