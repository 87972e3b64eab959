//! Why a container is refused.

ghost use Rattle.std.specs.Prelude.{◌≡◌, ◌+◌, ◌≤◌, ◌++◌, length, decimal};
ghost use Rattle.arrayvec.specs.ArrayVec.{array_vec_len};
ghost use Rattle.file_port.specs.Sink.{Puts};
ghost use Rattle.pcc_lines.specs.Refusals.{refusal_line, refusal_text, refusal_words, refusal_number, code_flaw_text};
ghost use Rattle.pcc_lines.specs.Refusals.{bad_word_text, malformed_text, head_text};

use crate::line::{DIGITS, LINE, Line, push_bytes, push_decimal, push_hex, push_text};
use alpha_cfg::CodeFlaw;
use alpha_words::BadWord;
use arrayvec::ArrayVec;
use file_port::{Put, Sink};
use pcc_gate::Refusal;
use proof_container::{Flaw, Head};

/// The maximal length in bytes of the text about a bad word: two numbers, a kind and two blanks.
const BAD_WORD: usize = 42;

/// The maximal length in bytes of the text about a container that is malformed.
const MALFORMED: usize = 32;

/// The maximal length in bytes of the text that names a policy: two digits for each byte of a
/// digest.
const HEAD: usize = 64;

/// The maximal length in bytes of the words of a refusal.
const WORDS: usize = 78;

/// The maximal length in bytes of a refusal's text.
pub const REFUSAL: usize = 86;

/// Appends a word that isn't an instruction: its index, the kind of fault, and the word.
fn push_bad_word(line: &mut Line, index: u32, word: u32, bad: BadWord)
    requires { array_vec_len line.old + BAD_WORD ≤ LINE }
    ensures items { line.new.items ≡ line.old.items ++ bad_word_text index word bad }
    ensures len { array_vec_len line.new ≤ array_vec_len line.old + BAD_WORD }
{
    push_decimal(line, u64::from(index));
    push_text(line, " ");
    push_text(line, bad.name());
    push_text(line, " ");
    push_hex(line, 8, u64::from(word));
}

/// Adds what is wrong with code.
fn push_code_flaw(line: &mut Line, flaw: CodeFlaw)
    requires { array_vec_len line.old + BAD_WORD ≤ LINE }
    ensures items { line.new.items ≡ line.old.items ++ code_flaw_text flaw }
    ensures len { array_vec_len line.new ≤ array_vec_len line.old + BAD_WORD }
{
    match flaw {
        CodeFlaw::BadWord(index, word, bad) => push_bad_word(line, index, word, bad),
        CodeFlaw::Target(index) => {
            push_decimal(line, u64::from(index));
            push_text(line, " Target");
        }
        CodeFlaw::FallsOff(index) => {
            push_decimal(line, u64::from(index));
            push_text(line, " FallsOff");
        }
    }
}

/// Appends the offset at which bytes aren't a container, and what is wrong there.
fn push_malformed(line: &mut Line, offset: u64, flaw: Flaw)
    requires { array_vec_len line.old + MALFORMED ≤ LINE }
    ensures items { line.new.items ≡ line.old.items ++ malformed_text offset flaw }
    ensures len { array_vec_len line.new ≤ array_vec_len line.old + MALFORMED }
{
    push_decimal(line, offset);
    push_text(line, " ");
    push_text(line, flaw.name());
}

/// Adds what names a policy: its number, or the digits of its digest.
fn push_head(line: &mut Line, head: Head)
    requires { array_vec_len line.old + HEAD ≤ LINE }
    ensures items { line.new.items ≡ line.old.items ++ head_text head }
    ensures len { array_vec_len line.new ≤ array_vec_len line.old + HEAD }
{
    match head {
        Head::Number(number) => push_decimal(line, u64::from(number)),
        Head::Digest(digest) => push_bytes(line, &digest),
    }
}

/// Appends a text and a number after it.
fn push_numbered(line: &mut Line, text: &str, number: u32)
    requires { array_vec_len line.old + length text.now + DIGITS ≤ LINE }
    ensures items { line.new.items ≡ line.old.items ++ (text.now ++ decimal number) }
    ensures len { array_vec_len line.new ≤ array_vec_len line.old + length text.now + DIGITS }
{
    push_text(line, text);
    push_decimal(line, u64::from(number));
}

/// Returns the number that the refusal's line has after `refused`.
pub fn refusal_number(refusal: Refusal) -> u32
    ensures { result ≡ refusal_number refusal }
{
    match refusal {
        Refusal::TooLong(_) => 1,
        Refusal::Malformed(_, _) => 2,
        Refusal::OtherPolicy(_) => 3,
        Refusal::BadCode(_) => 4,
        Refusal::Height(_) => 5,
        Refusal::InvNotForm(_) => 6,
        Refusal::Uncut(_) => 7,
        Refusal::UnfoldLimit(_) => 8,
        Refusal::NoProof => 9,
        Refusal::ProofWeight(_) => 10,
        Refusal::NotProof => 11,
        Refusal::LemmaNotForm(_) => 13,
        Refusal::LemmaNotProof(_) => 14,
    }
}

/// Appends the number and the name of the check, and what is wrong.
fn push_words(line: &mut Line, refusal: Refusal)
    requires { array_vec_len line.old + WORDS ≤ LINE }
    ensures items { line.new.items ≡ line.old.items ++ refusal_words refusal }
    ensures len { array_vec_len line.new ≤ array_vec_len line.old + WORDS }
{
    match refusal {
        Refusal::TooLong(_) => push_text(line, "1 TooLong"),
        Refusal::Malformed(offset, flaw) => {
            push_text(line, "2 Malformed ");
            push_malformed(line, offset, flaw);
        }
        Refusal::OtherPolicy(head) => {
            push_text(line, "3 OtherPolicy ");
            push_head(line, head);
        }
        Refusal::BadCode(flaw) => {
            push_text(line, "4 BadCode ");
            push_code_flaw(line, flaw);
        }
        Refusal::Height(height) => push_numbered(line, "5 Height ", height),
        Refusal::InvNotForm(k) => push_numbered(line, "6 InvNotForm ", k),
        Refusal::LemmaNotForm(k) => push_numbered(line, "13 LemmaNotForm ", k),
        Refusal::Uncut(index) => push_numbered(line, "7 Uncut ", index),
        Refusal::UnfoldLimit(n) => push_numbered(line, "8 UnfoldLimit ", n),
        Refusal::NoProof => push_text(line, "9 NoProof"),
        Refusal::ProofWeight(n) => push_numbered(line, "10 ProofWeight ", n),
        Refusal::LemmaNotProof(k) => push_numbered(line, "14 LemmaNotProof ", k),
        Refusal::NotProof => push_text(line, "11 NotProof"),
    }
}

/// Appends why a container is refused.
pub fn push_refusal(line: &mut Line, refusal: Refusal)
    requires { array_vec_len line.old + REFUSAL ≤ LINE }
    ensures items { line.new.items ≡ line.old.items ++ refusal_text refusal }
    ensures len { array_vec_len line.new ≤ array_vec_len line.old + REFUSAL }
{
    push_text(line, "refused ");
    push_words(line, refusal);
}

/// Prints why a container is refused, as one piece.
#[tactic(auto, unfolding(crate::specs::Refusals::refusal_line))]
pub fn print_refusal<S: Sink>(refusal: Refusal, out: &mut S) -> Put
    ensures { Puts (refusal_line refusal) (S.state out.old) (S.state out.new) result }
{
    let mut line: Line = ArrayVec::new();
    push_refusal(&mut line, refusal);
    push_text(&mut line, "\n");
    out.put(line.as_slice())
}
