//! Theorems about the definitions; nothing here runs.

ghost use Rattle.std.specs.Prelude.{ℕ, List};
ghost use Rattle.file_port.specs.Events.{Event};
ghost use Rattle.file_port.specs.Files.{FilesState};
ghost use Rattle.file_port.specs.Sink.{SinkState};
ghost use Rattle.pcc_stages.specs.Requests.{Request, Texts};
ghost use Rattle.pcc_stages.specs.Runs.{Task, Runs, IsSuited, request_of_task};
ghost use Rattle.pcc_stages.specs.Ends.{Ends};
ghost use Rattle.pcc_stages.specs.Accounts.{Accounts};

/// States how runs end. A run that does what a suited task asks for ends with the answer if the
/// files are known, and as `Ends` says if they aren't (`ends`). However a run ends, its exit status
/// and the counts say what `Accounts` lists (`accounts`).
pub fn laws()
    ensures ends { (texts : Texts) (task : Task) (e e' : List Event) (f g : FilesState)
        (s t : SinkState) (status : ℕ)
        → IsSuited texts task.standing task.names task.stage
        → Runs texts task.stage e e' f g s t status
        → Ends (request_of_task texts task) f g s t status }
    ensures accounts { (request : Request) (f g : FilesState) (s t : SinkState) (status : ℕ)
        → Ends request f g s t status → Accounts request f g s t status }
{}
