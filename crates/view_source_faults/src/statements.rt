//! The statements of a source's lines.

ghost use Rattle.std.specs.Prelude.{◌≡◌, ◌≤◌, ◌+◌, IfSome, length};
ghost use Rattle.std.specs.Option.{option_map};
ghost use Rattle.text_tokens.specs.Tokens.{front_token, token_view};
ghost use Rattle.asm_text.specs.Labels.{is_letter, is_letter_or_digit};
ghost use Rattle.asm_text.specs.Labels.{are_letters_or_digits, is_label};
ghost use Rattle.asm_text.specs.Marks.{source_class};
ghost use Rattle.asm_text.specs.Statements.{before_comment};
ghost use Rattle.asm_text.specs.SourceParsing.{label_split, behind_label};
ghost use Rattle.view_source_faults.specs.Inside.Tokens.{source_token};
ghost use Rattle.view_source_faults.specs.SourceLines.{statement_text, statement_place};

use crate::tokens::{Punct, token_from};
use text_tokens::Token;

/// Returns the bytes before `#`.
fn before_comment(line: &[u8]) -> &[u8]
    ensures exact { result.now ≡ before_comment line.now }
    ensures within { length result.now ≤ length line.now }
{
    for i in 0..line.len() {
        if line[i] == b'#' {
            return &line[..i];
        }
    }
    line
}

fn is_letter(byte: u8) -> bool
    ensures { result ≡ is_letter byte }
{
    (b'A' <= byte && byte <= b'Z') || ((b'a' <= byte && byte <= b'z') || byte == b'_')
}

fn is_letter_or_digit(byte: u8) -> bool
    ensures { result ≡ is_letter_or_digit byte }
{
    is_letter(byte) || (b'0' <= byte && byte <= b'9')
}

fn are_letters_or_digits(lexeme: &[u8]) -> bool
    ensures { result ≡ are_letters_or_digits lexeme.now }
{
    for i in 0..lexeme.len() {
        if !is_letter_or_digit(lexeme[i]) {
            return false;
        }
    }
    true
}

/// Whether the lexeme is a label.
fn is_label(lexeme: &[u8]) -> bool
    ensures { result ≡ is_label lexeme.now }
{
    match lexeme {
        [] => false,
        [first, rest @ ..] => is_letter(*first) && are_letters_or_digits(rest),
    }
}

/// Returns the first token, and the text after it; `None` if there are only blanks.
fn front(text: &[u8]) -> Option<(Token<'_, Punct>, &[u8])>
    ensures exact { option_map (λ p. (source_token (token_view p.0), p.1.now)) result
        ≡ front_token source_class text.now }
    ensures within { IfSome result (λ p. length p.1.now ≤ length text.now) }
{
    match token_from(text, 0) {
        Some(placed) => Some((placed.token, &text[placed.next..])),
        None => None,
    }
}

/// Returns the text after the label at the start and its colon, if there is one.
#[tactic(auto, unfolding(asm_text::specs::SourceParsing::label_split))]
fn split_label(text: &[u8]) -> Option<&[u8]>
    ensures exact { option_map (λ l. l.now) result
        ≡ option_map (λ p. p.1) (label_split text.now) }
    ensures within { IfSome result (λ l. length l.now ≤ length text.now) }
{
    let Some((Token::Lexeme(label), rest)) = front(text) else {
        return None;
    };
    let Some((Token::Mark(Punct::Colon), rest)) = front(rest) else {
        return None;
    };
    if is_label(label) { Some(rest) } else { None }
}

/// Returns the text after the label of a line's body, if it has one.
fn behind_label(body: &[u8]) -> &[u8]
    ensures exact { result.now ≡ behind_label body.now (label_split body.now) }
    ensures within { length result.now ≤ length body.now }
{
    match split_label(body) {
        Some(rest) => rest,
        None => body,
    }
}

/// Returns what comes after the label of a line and before its comment, and the offset in the line
/// at which it begins.
#[tactic(auto, unfolding(crate::specs::SourceLines::statement_text))]
pub fn statement_of(line: &[u8]) -> (usize, &[u8])
    ensures place { result.0 ≡ statement_place line.now }
    ensures text { result.1.now ≡ statement_text line.now }
    ensures within { result.0 + length result.1.now ≤ length line.now }
{
    let body = before_comment(line);
    let statement = behind_label(body);
    (body.len() - statement.len(), statement)
}
