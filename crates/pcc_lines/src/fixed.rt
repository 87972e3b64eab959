//! Lines that never vary.

ghost use Rattle.file_port.specs.Sink.{Puts};
ghost use Rattle.pcc_lines.specs.Fixed.{usage_line, unknown_policy_line, packets_too_long_line};
ghost use Rattle.pcc_lines.specs.Fixed.{accepted_line, container_too_long_line};
ghost use Rattle.pcc_lines.specs.Fixed.{source_too_long_line, bpf_too_long_line, script_too_long_line};
ghost use Rattle.pcc_lines.specs.Fixed.{policy_too_long_line, already_line};

use file_port::{Put, Sink};

/// Prints the usage line, which lists the commands.
pub fn print_usage<S: Sink>(out: &mut S) -> Put
    ensures { Puts usage_line (S.state out.old) (S.state out.new) result }
{
    out.put(b"usage: pcc asm|prove|check|run|ref|demo|upgrade|host|bpf\n")
}

/// Prints that no policy has the name given.
pub fn print_unknown_policy<S: Sink>(out: &mut S) -> Put
    ensures { Puts unknown_policy_line (S.state out.old) (S.state out.new) result }
{
    out.put(b"unknown policy\n")
}

/// Prints that the packet file is longer than a file may be.
pub fn print_packets_too_long<S: Sink>(out: &mut S) -> Put
    ensures { Puts packets_too_long_line (S.state out.old) (S.state out.new) result }
{
    out.put(b"packets TooLong\n")
}

/// Prints that a container is accepted.
pub fn print_accepted<S: Sink>(out: &mut S) -> Put
    ensures { Puts accepted_line (S.state out.old) (S.state out.new) result }
{
    out.put(b"accepted\n")
}

/// Prints that the container's file is longer than a file may be.
pub fn print_container_too_long<S: Sink>(out: &mut S) -> Put
    ensures { Puts container_too_long_line (S.state out.old) (S.state out.new) result }
{
    out.put(b"refused 1 TooLong\n")
}

/// Prints that the source's file is longer than a source may be.
pub fn print_source_too_long<S: Sink>(out: &mut S) -> Put
    ensures { Puts source_too_long_line (S.state out.old) (S.state out.new) result }
{
    out.put(b"source TooLong\n")
}

/// Prints that the BPF program's file is longer than what is read of one.
pub fn print_bpf_too_long<S: Sink>(out: &mut S) -> Put
    ensures { Puts bpf_too_long_line (S.state out.old) (S.state out.new) result }
{
    out.put(b"bpf TooLong\n")
}

/// Prints that the script's file is longer than a script may be.
pub fn print_script_too_long<S: Sink>(out: &mut S) -> Put
    ensures { Puts script_too_long_line (S.state out.old) (S.state out.new) result }
{
    out.put(b"script TooLong\n")
}

/// Prints that the policy's file is longer than what is read of one.
pub fn print_policy_too_long<S: Sink>(out: &mut S) -> Put
    ensures { Puts policy_too_long_line (S.state out.old) (S.state out.new) result }
{
    out.put(b"policy TooLong\n")
}

/// Prints that the container to be upgraded is of a later version already.
pub fn print_already<S: Sink>(out: &mut S) -> Put
    ensures { Puts already_line (S.state out.old) (S.state out.new) result }
{
    out.put(b"refused 12 Already\n")
}
