//! Compiling programs of classic BPF to accepted containers.

ghost use Rattle.std.specs.Prelude.{◌≡◌, IfOk, Ok};
ghost use Rattle.proof_container.specs.Encoding.{encoding_of};
ghost use Rattle.policy_set.specs.declared.kind.PolicyKind.TheVariants.{Filter};
ghost use Rattle.policy_set.specs.Views.{built_in};
ghost use Rattle.bpf_words.specs.Programs.{IsProgram};
ghost use Rattle.bpf_compile.specs.Compiled.{IsCompiled};
ghost use Rattle.bpf_compile.specs.Compilation.{bare_contents, compiled_container, IsCompilation};

use crate::invariants::encode_invs;
use crate::words::bytes_of;
use bounds_prover::{ProveFault, prove_within};
use bpf_code::bpf_code;
use bpf_words::Bpf;
use lf_signature::WordSignature;
use policy_set::{Policy, PolicyKind};
use proof_container::{Head, View, write};
use std::alloc::{AllocError, Global};
use term_table::Table;

/// Returns the container of a program without a proof. Errors: out of memory.
fn bare(alloc: Global, policy: &Policy, program: &[Bpf]) -> Result<Vec<u8>, AllocError>
    requires policy { policy.now ≡ built_in Filter }
    requires program { IsProgram program.now }
    ensures { IfOk result (λ v. v.items ≡ encoding_of (bare_contents program.now)) }
{
    bpf_code::code_laws();
    crate::laws();
    crate::written_laws();
    let insns = bpf_code(alloc, program)?;
    let code = bytes_of(alloc, &insns)?;
    let mut table = Table::new(alloc, WordSignature::Sigma1.places());
    let invs = encode_invs(alloc, &mut table, policy, program)?;
    let view = View {
        version: 1,
        head: Head::Number(policy.number()),
        bound: None,
        code: &code,
        table: &table,
        invs: &invs,
        lemmas: &[],
        proof: None,
    };
    let bytes = write(alloc, &view)?;
    Ok(bytes)
}

/// The container of a program with a proof.
fn with_proof(
    alloc: Global,
    policy: &Policy,
    program: &[Bpf],
    bytes: &[u8],
) -> Result<Vec<u8>, AllocError>
    requires policy { policy.now ≡ built_in Filter }
    requires program { IsProgram program.now }
    requires bare { bytes.now ≡ encoding_of (bare_contents program.now) }
    ensures made { IfOk result (λ out. compiled_container program.now ≡ Ok out.items) }
    ensures exact { IfOk result (λ out. IsCompilation program.now out.items) }
    ensures compiled { IfOk result (λ out. IsCompiled program.now out.items) }
{
    let _ = program; // only the clauses speak of it
    bpf_condition::laws();
    bpf_code::code_laws();
    crate::laws();
    crate::written_laws();
    match prove_within(alloc, false, policy, bytes) {
        Ok(out) => Ok(out),
        Err(ProveFault::Memory) => Err(AllocError),
        Err(ProveFault::At(_)) => unreachable!(),
        Err(ProveFault::Results) => unreachable!(),
    }
}

/// Compiles a program to the bytes of a container that the gate accepts under `filter`. On a packet
/// of 64 bytes or more its code returns 0 if the program's value is 0, else 1. The container has
/// the words that the assembler writes for the program's code, two invariants for each instruction,
/// and the proof that the class of easy conditions gives: what `prove` makes of the container
/// without one.
///
/// `program` is a program, as `bpf_words::read_bpf` promises.
///
/// Errors: out of memory alone. It says nothing about `program`: every program has a container. The
/// search for the proof has no limit.
///
/// Source: McCanne and Jacobson, The BSD Packet Filter, USENIX 1993.
pub fn compile(alloc: Global, program: &[Bpf]) -> Result<Vec<u8>, AllocError>
    requires { IsProgram program.now }
    ensures compiled { IfOk result (λ out. IsCompiled program.now out.items) }
    ensures made { IfOk result (λ out. compiled_container program.now ≡ Ok out.items) }
    ensures exact { IfOk result (λ out. IsCompilation program.now out.items) }
{
    let policy = Policy::of(alloc, PolicyKind::Filter)?;
    let bytes = bare(alloc, &policy, program)?;
    with_proof(alloc, &policy, program, &bytes)
}
