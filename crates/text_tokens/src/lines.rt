//! Splitting of a text into lines.

ghost use Rattle.std.specs.Prelude.{◌≡◌, ℕ, ◌<◌, ◌≤◌, ◌∷◌, ◌++◌, List, length, take};
ghost use Rattle.std.specs.Prelude.{slice_index};
ghost use Rattle.text_tokens.specs.Lines.{IsLine, lines_of};

/// Returns the number of bytes before the first LF, or before the end if there is none.
fn line_length(text: &[u8]) -> usize
    ensures within { result ≤ length text.now }
    ensures line { IsLine (take result text.now) }
    ensures stops { result < length text.now → slice_index text.now result ≡ 10 }
{
    for i in 0..text.len() {
        if text[i] == b'\n' {
            return i;
        }
    }
    text.len()
}

/// Returns the line without the CR at its end, if it has one.
fn without_cr(line: &[u8]) -> &[u8]
    ensures { (rest : List ℕ) → IsLine line.now
        → lines_of (line.now ++ (10 ∷ rest)) ≡ result.now ∷ lines_of rest }
{
    if line.is_empty() {
        return line;
    }
    let last = line.len() - 1;
    if line[last] == b'\r' {
        &line[..last]
    } else {
        line
    }
}

/// Returns the first line of a text that isn't empty, and the text after it.
pub fn split_line(text: &[u8]) -> (&[u8], &[u8])
    requires { 0 < length text.now }
    ensures line { lines_of text.now ≡ result.0.now ∷ lines_of result.1.now }
    ensures shorter { length result.1.now < length text.now }
{
    let count = line_length(text);
    if count == text.len() {
        return (text, &text[count..]);
    }
    (without_cr(&text[..count]), &text[count + 1..])
}

/// Returns the number of lines of the text.
pub fn line_count(text: &[u8]) -> usize
    ensures exact { result ≡ length (lines_of text.now) }
{
    let mut count = 0;
    let mut rest = text;
    'lines: while !rest.is_empty() {
        let (_, behind) = split_line(rest);
        rest = behind;
        count += 1;
    }
    count
}
