//! Lines with a file's name, each written as three pieces.

ghost use Rattle.std.specs.Prelude.{codes};
ghost use Rattle.file_port.specs.Sink.{Puts};
ghost use Rattle.pcc_lines.specs.Named.{missing_line, read_fault_line, write_fault_line, named_line};

use file_port::{Put, Sink};

/// Prints a text, as one piece.
fn print_text<S: Sink>(text: &str, out: &mut S) -> Put
    ensures { Puts text.now (S.state out.old) (S.state out.new) result }
{
    out.put(text.as_bytes())
}

/// Prints a text, the name after it, and the line's end.
fn print_named<S: Sink>(text: &str, name: &str, out: &mut S) -> Put
    ensures { Puts (named_line text.now name.now) (S.state out.old) (S.state out.new) result }
{
    match print_text(text, out) {
        Put::Done => {}
        Put::Failed => return Put::Failed,
    }
    match print_text(name, out) {
        Put::Done => {}
        Put::Failed => return Put::Failed,
    }
    print_text("\n", out)
}

/// Prints that there is no file with this name.
pub fn print_missing<S: Sink>(name: &str, out: &mut S) -> Put
    ensures { Puts (missing_line name.now) (S.state out.old) (S.state out.new) result }
{
    print_named("missing ", name, out)
}

/// Prints that the read of the file with this name failed.
pub fn print_read_fault<S: Sink>(name: &str, out: &mut S) -> Put
    ensures { Puts (read_fault_line name.now) (S.state out.old) (S.state out.new) result }
{
    print_named("read fault ", name, out)
}

/// Prints that the write of the file with this name failed.
pub fn print_write_fault<S: Sink>(name: &str, out: &mut S) -> Put
    ensures { Puts (write_fault_line name.now) (S.state out.old) (S.state out.new) result }
{
    print_named("write fault ", name, out)
}
