//! Lines of a script and their words.

ghost use Rattle.std.specs.Prelude.{◌≡◌, ◌<◌, ◌≤◌, ◌∷◌, [], true, false, length, take, slice_index};
ghost use Rattle.std.specs.Prelude.{IfSome, IfNone, option_map, unwrap_or};
ghost use Rattle.agent_script.specs.Lines.{script_lines, line_words, parts_words};
ghost use Rattle.agent_script.specs.Inside.Words.{HasNoEnd, HasNoBlank, IsBlank};

use std::marker::Model;

/// Returns the number of bytes before the first LF, or before the end.
fn line_length(text: &[u8]) -> usize
    ensures within { result ≤ length text.now }
    ensures line { HasNoEnd (take result text.now) }
    ensures stops { result < length text.now → slice_index text.now result ≡ 10 }
{
    for i in 0..text.len() {
        if text[i] == b'\n' {
            return i;
        }
    }
    text.len()
}

/// Returns the first line, and the text after it. The text isn't empty.
pub fn split_line(text: &[u8]) -> (&[u8], &[u8])
    requires { 0 < length text.now }
    ensures line { script_lines text.now ≡ result.0.now ∷ script_lines result.1.now }
    ensures shorter { length result.1.now < length text.now }
{
    let count = line_length(text);
    if count == text.len() {
        return (text, &text[count..]);
    }
    (&text[..count], &text[count + 1..])
}

/// Whether the byte parts words.
fn parts_words(byte: u8) -> bool
    ensures { result ≡ parts_words byte }
{
    byte == b' ' || byte == b'\t'
}

/// Returns the number of bytes before the first blank, or before the end.
fn word_length(line: &[u8]) -> usize
    ensures within { result ≤ length line.now }
    ensures word { HasNoBlank (take result line.now) }
    ensures stops { result < length line.now → parts_words (slice_index line.now result) ≡ true }
{
    for i in 0..line.len() {
        if parts_words(line[i]) {
            return i;
        }
    }
    line.len()
}

/// Returns the number of blanks at the start.
fn blank_count(line: &[u8]) -> usize
    ensures within { result ≤ length line.now }
    ensures blank { IsBlank (take result line.now) }
    ensures stops { result < length line.now → parts_words (slice_index line.now result) ≡ false }
{
    for i in 0..line.len() {
        if !parts_words(line[i]) {
            return i;
        }
    }
    line.len()
}

/// Returns the first word, and the text after the blanks that end it; None after the last word.
fn split_word(line: &[u8]) -> (&[u8], Option<&[u8]>)
    ensures { line_words line.now ≡ result.0.now
        ∷ unwrap_or (option_map (λ rest. line_words rest.now) result.1) [] }
{
    let count = word_length(line);
    if count == line.len() {
        return (line, None);
    }
    let (word, behind) = line.split_at(count);
    (word, Some(&behind[blank_count(behind)..]))
}

/// The words of a line that aren't read yet. Contracts see their list.
#[derive(Drop)]
pub struct Words<'b> {
    rest: Option<&'b [u8]>,
}

impl<'b> Model for Words<'b> {
    ghost use Rattle.std.specs.Prelude.{ℕ, List, [], option_map, unwrap_or};
    ghost use Rattle.agent_script.specs.Lines.{line_words};

    ghost Value = { List (List ℕ) };

    ghost view = { λ words. unwrap_or (option_map (λ rest. line_words rest.now) words.rest) [] };
}

impl<'b> Words<'b> {
    /// Returns all words of the line.
    pub fn of(line: &'b [u8]) -> Words<'b>
        ensures { result ≡ line_words line.now }
    {
        Words { rest: Some(line) }
    }

    /// Reads and returns the next word, or None after the last.
    pub fn next(&mut self) -> Option<&'b [u8]>
        ensures some { IfSome result (λ word. self.old ≡ word.now ∷ self.new) }
        ensures none { IfNone result (self.old ≡ []) }
        ensures done { IfNone result (self.new ≡ []) }
    {
        let (word, rest) = split_word(self.rest?);
        self.rest = rest;
        Some(word)
    }
}
