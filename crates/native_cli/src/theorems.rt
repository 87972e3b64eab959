//! Theorems about the definitions, with nothing to run.

ghost use Rattle.std.specs.Prelude.{ℕ, List};
ghost use Rattle.file_port.specs.Events.{Event};
ghost use Rattle.file_port.specs.Files.{FilesState};
ghost use Rattle.file_port.specs.Sink.{SinkState};
ghost use Rattle.pcc_stages.specs.Accounts.{Accounts};
ghost use Rattle.pcc_stages.specs.Ends.{Ends};
ghost use Rattle.pcc_stages.specs.Runs.{Runs};
ghost use Rattle.native_cli.specs.Tasks.{Translator, native_task, native_request};
ghost use Rattle.native_cli.specs.Texts.{native_texts};

/// States how a run ends, from what `pcc_native` says of it, with whatever translator. If the contents
/// of the files are known, the run ends with the answer over them, or as a failed call or running out
/// of memory requires; if they aren't known, less is known (`Ends`). Its exit status and the counts of
/// faults say what `Accounts` lists.
pub fn laws()
    ensures ends { (texts : Translator) (args : List (List ℕ)) (e e' : List Event)
        (f g : FilesState) (s t : SinkState) (status : ℕ)
        → Runs native_texts (native_task texts args).stage e e' f g s t status
        → Ends (native_request texts args) f g s t status }
    ensures accounts { (texts : Translator) (args : List (List ℕ)) (e e' : List Event)
        (f g : FilesState) (s t : SinkState) (status : ℕ)
        → Runs native_texts (native_task texts args).stage e e' f g s t status
        → Accounts (native_request texts args) f g s t status }
{
    pcc_stages::laws();
}
