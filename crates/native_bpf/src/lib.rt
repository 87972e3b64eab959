//! Theorems about native code of BPF programs: it returns what the program's value says.
//!
//! Whoever calls the native code of a container from `pcc bpf` on a packet gets 0 if the program's
//! value on the packet is 0, else 1. `specs/Returns` says of which calls this holds. No fuel is
//! needed, since the code has no loop head; no memory outside the area changes, since it stores
//! nothing. Nothing here runs.
//!
//! bpf_words defines programs and their values, `bpf_code` their code, `bpf_compile` their
//! containers, `native_code` calls, and `native_translator` translations.
//!
//! Source: McCanne and Jacobson, The BSD Packet Filter, USENIX 1993, section 3.
#![tactic(auto)]

ghost use Rattle.native_bpf.specs.Returns.{CompiledAnswer, ProgramsAnswer};

/// Proves what calls of native code on a packet return: 0 if the program's value is 0, else 1, for
/// the code of a program (`programs`), and for whatever code the container is accepted with that
/// the program is compiled to (`compiled`).
pub fn laws()
    ensures programs { ProgramsAnswer }
    ensures compiled { CompiledAnswer }
{
    native_code::head_laws();
    native_code::laws();
    bpf_code::laws();
    bpf_code::code_laws();
    bpf_compile::written_laws();
}
