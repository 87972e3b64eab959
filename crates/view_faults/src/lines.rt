//! The lines of a text by number.

ghost use Rattle.std.specs.Prelude.{◌≡◌, slice_get};
ghost use Rattle.std.specs.Option.{option_map};
ghost use Rattle.text_tokens.specs.Lines.{lines_of};
ghost use Rattle.view_faults.specs.Lines.{numbered_line};

use text_tokens::split_line;

/// The line at an index from 0.
fn line_at(text: &[u8], index: usize) -> Option<&[u8]>
    ensures { option_map (λ l. l.now) result ≡ slice_get (lines_of text.now) index }
{
    let mut rest = text;
    let mut left = index;
    'lines: while !rest.is_empty() {
        let (line, behind) = split_line(rest);
        if left == 0 {
            return Some(line);
        }
        rest = behind;
        left -= 1;
    }
    None
}

/// Returns the line with this number, counted from 1, or None if the text has no such line.
pub fn numbered_line(text: &[u8], number: u32) -> Option<&[u8]>
    ensures { option_map (λ l. l.now) result ≡ numbered_line text.now number }
{
    if number == 0 {
        return None;
    }
    line_at(text, (number - 1) as usize)
}
