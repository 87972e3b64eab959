//! From the arguments to what is written: reads, the check, the translation, and the write.

ghost use Rattle.std.specs.Prelude.{◌≡◌, ◌≤◌, length, IfOk, IfErr, map, string_bytes};
ghost use Rattle.pcc_gate.specs.Answers.{IsAcceptedBy};
ghost use Rattle.pcc_stages.specs.Answers.{GivesPure};
ghost use Rattle.native_cli.specs.Arguments.{args_view};
ghost use Rattle.native_cli.specs.Invocations.{parsed_args_of};
ghost use Rattle.native_cli.specs.Tasks as tasks;
ghost use Rattle.native_cli.specs.Tasks.{accepted_or_line};
ghost use Rattle.native_cli.specs.Inside.Making.{IsObjectOf, GivesPureWith, GivesWith};
ghost use Rattle.native_cli.specs.Inside.Making.{MakesObject, MakesIfTold, WroteObject};

use crate::arguments::{MAX_NAME, NativeArgs, read_args};
use crate::report::Report;
use file_port::{Files, Put};
use native_gate::text_of;
use native_object::object;
use pcc_gate::{Accepted, GateFault, gate};
use pcc_stages::{RefusedLine, Stop, container_bytes_of, policy_told};
use policy_set::Policy;
use std::alloc::{AllocError, Global};

/// Returns the object file of accepted code, with a function of this name.
fn object_from(alloc: Global, accepted: &Accepted, name: &str) -> Result<Vec<u8>, AllocError>
    requires { length name.now ≤ MAX_NAME }
    ensures { IfOk result (λ file. IsObjectOf name.now accepted.now file.items) }
{
    let text = text_of(alloc, accepted)?;
    let file = object(alloc, name.as_bytes(), &text)?;
    Ok(file)
}

/// What the gate says of the bytes.
#[tactic(auto, unfolding(crate::specs::Tasks::accepted_or_line))]
fn judged<'a>(alloc: Global, policy: &Policy, bytes: &[u8]) -> Result<Accepted, Stop<'a>>
    ensures exact { GivesPure (λ a. tt) (accepted_or_line policy.now bytes.now) result }
    ensures accepted { IfOk result (λ a. IsAcceptedBy policy.now bytes.now a) }
{
    match gate(alloc, policy, bytes) {
        Ok(accepted) => Ok(accepted),
        Err(GateFault::Refused(refusal)) => Err(Stop::Refused(RefusedLine::Container(refusal))),
        Err(GateFault::Memory | GateFault::Results) => Err(Stop::Memory),
    }
}

/// Returns the object file of accepted code, or the stop that there is no memory.
fn object_made<'a>(alloc: Global, accepted: Accepted, name: &str) -> Result<Vec<u8>, Stop<'a>>
    requires { length name.now ≤ MAX_NAME }
    ensures made { IfOk result (λ file. IsObjectOf name.now accepted file.items) }
    ensures memory { IfErr result (λ stop. stop ≡ Stop.Memory) }
{
    match object_from(alloc, &accepted, name) {
        Ok(file) => {
            drop(accepted);
            Ok(file)
        }
        Err(_) => {
            drop(accepted);
            Err(Stop::Memory)
        }
    }
}

/// Checks the container in the bytes under the policy, and returns the object file of its code.
fn object_in<'a>(
    alloc: Global,
    policy: &Policy,
    bytes: &[u8],
    name: &str,
) -> Result<Vec<u8>, Stop<'a>>
    requires { length name.now ≤ MAX_NAME }
    ensures { GivesPureWith (λ file. file.items)
        (λ texts. tasks.object_in texts policy.now name.now bytes.now) result }
{
    pcc_gate::laws();
    match judged(alloc, policy, bytes) {
        Ok(accepted) => object_made(alloc, accepted, name),
        Err(stop) => Err(stop),
    }
}

/// Reads the container file, checks it under the policy, and returns the object file of its code.
fn object_of<'a, F: Files>(
    alloc: Global,
    policy: &Policy,
    args: &NativeArgs<'a>,
    files: &mut F,
) -> Result<Vec<u8>, Stop<'a>>
    requires { length args.now.name.now ≤ MAX_NAME }
    ensures { let a = args_view args.now in
        GivesWith (λ file. file.items) (λ texts. tasks.object_of texts policy.now a.name a.file)
        (F.log files.old) (F.log files.new) (F.state files.old) (F.state files.new) result }
{
    pcc_gate::laws();
    let bytes = container_bytes_of(alloc, args.file, files)?;
    object_in(alloc, policy, &bytes, args.name)
}

/// Reads the policy, which may be in a file, and the container, and returns the object file of its
/// code.
fn object_told<'a, F: Files>(
    alloc: Global,
    args: &NativeArgs<'a>,
    files: &mut F,
) -> Result<Vec<u8>, Stop<'a>>
    requires { length args.now.name.now ≤ MAX_NAME }
    ensures { GivesWith (λ file. file.items)
        (λ texts. tasks.object_told texts (args_view args.now))
        (F.log files.old) (F.log files.new) (F.state files.old) (F.state files.new) result }
{
    pcc_gate::laws();
    let policy = policy_told(alloc, args.policy, files)?;
    object_of(alloc, &policy, args, files)
}

/// Writes the bytes, and reports how many they are.
fn written<'a, F: Files>(output: &'a str, bytes: &[u8], files: &mut F) -> Result<Report, Stop<'a>>
    ensures { WroteObject output.entry.now bytes.now
        (F.log files.old) (F.log files.new) (F.state files.old) (F.state files.new) result }
{
    match files.write(output, bytes) {
        Put::Done => Ok(Report::Written(bytes.len() as u64)),
        Put::Failed => Err(Stop::WriteFault(output)),
    }
}

/// Reads the policy, which may be in a file, and the container, checks and translates it, and writes
/// the object file.
fn made<'a, F: Files>(
    alloc: Global,
    args: &NativeArgs<'a>,
    files: &mut F,
) -> Result<Report, Stop<'a>>
    requires { length args.now.name.now ≤ MAX_NAME }
    ensures { MakesObject (args_view args.now)
        (F.log files.old) (F.log files.new) (F.state files.old) (F.state files.new) result }
{
    let file = object_told(alloc, args, files)?;
    written(args.output, &file, files)
}

/// Makes the reads and the write that the arguments ask for. Prints nothing.
pub(crate) fn decide<'a, F: Files>(
    alloc: Global,
    words: &'a [String],
    files: &mut F,
) -> Result<Report, Stop<'a>>
    ensures { MakesIfTold (parsed_args_of (map string_bytes words.entry.now))
        (F.log files.old) (F.log files.new) (F.state files.old) (F.state files.new) result }
{
    pcc_gate::laws();
    match read_args(alloc, words) {
        Ok(Some(args)) => made(alloc, &args, files),
        Ok(None) => Ok(Report::Usage),
        Err(_) => Err(Stop::Memory),
    }
}
