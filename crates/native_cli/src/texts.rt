//! The lines of pcc_native.

ghost use Rattle.file_port.specs.Sink.{Puts};
ghost use Rattle.native_cli.specs.Texts.{native_usage_line, native_help_text, native_version_text};

use file_port::{Put, Sink};

/// Prints the usage line.
#[tactic(auto, unfolding(crate::specs::Texts::native_usage_line))]
pub(crate) fn print_usage<S: Sink>(out: &mut S) -> Put
    ensures { Puts native_usage_line (S.state out.old) (S.state out.new) result }
{
    out.put(b"usage: pcc_native POLICY FILE OUT [--name NAME]\n")
}

/// Prints the help text.
#[tactic(auto, unfolding(crate::specs::Texts::native_help_text))]
pub(crate) fn print_help<S: Sink>(out: &mut S) -> Put
    ensures { Puts native_help_text (S.state out.old) (S.state out.new) result }
{
    out.put(
        b"pcc_native checks FILE as pcc check does, and writes its code for x86-64.\n\
        \n\
        pcc_native POLICY FILE OUT [--name NAME]\n\
        pcc_native --help, pcc_native --version\n\
        \n\
        POLICY is filter, tag or table, or @NAME for the policy in the file NAME.\n\
        OUT is an object file with the function NAME, or pcc_code.\n\
        \n\
        pcc_native filter examples/port/container ../port.o --name port\n",
    )
}

/// Prints the program's version, and which containers it reads.
#[tactic(auto, unfolding(crate::specs::Texts::native_version_text))]
pub(crate) fn print_version<S: Sink>(out: &mut S) -> Put
    ensures { Puts native_version_text (S.state out.old) (S.state out.new) result }
{
    out.put(b"pcc_native 1.0.0\ncontainers of version 1 to 4\n")
}
