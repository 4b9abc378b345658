ghost use Rattle.std.specs.Prelude.{◌≡◌, [], ℕ, ◌<◌, ◌^◌, Bool, List, Option, Result, IfErr, IfOk};
ghost use Rattle.std.specs.Prelude.{length, option_map};
ghost use Rattle.input_output.specs.Store.{Files};
ghost use Rattle.find_records.specs.Record.{Record};
ghost use Rattle.find_records.specs.declared.format.Format.{Format};
ghost use Rattle.file_roles.specs.declared.list.NamedFile.{NamedFile};
ghost use Rattle.run_faults.specs.Causes.{Counts, Gives, IsInputCause};
ghost use Rattle.run_faults.specs.declared.cause.Cause.{Cause};
ghost use Rattle.run_input.specs.Files.{FilesSay, Reads};
ghost use Rattle.run_input.specs.Records.{AreTaken};
ghost use Rattle.run_endings.specs.declared.ending.Ending.{Ending};
ghost use Rattle.tool_runs.specs.Stages.{saved_name};

use file_roles::FileList;
use find_records::Format;
use input_output::Store;
use label_base::OutOfMemory;
use run_endings::Ending;
use run_faults::Cause;
use std::alloc::Global;
use tree_model::Tree;

/// What the words of a tool ask for: the files that are read, the format of the records that are,
/// if any, and what is answered by both.
pub trait Tool {
    /// What the files say.
    type Found: Drop;

    /// The files that are read, in order.
    ghost reads: { Self → List NamedFile };

    /// The input is read as records of this format, or left alone.
    ghost records: { Self → Option Format };

    /// Errors of the walk end with status 1.
    ghost is_soft: { Self → Bool };

    /// The name of the file that is written.
    ghost output: { Self → Option (List ℕ) };

    /// What the files say, or the first refusal among them, and how many are opened up to there.
    ghost files_say: { Self → Files → FilesSay Self.Found };

    /// The words are few enough for what the tool counts.
    ghost IsFit: { Self → Type 0 };

    /// What is written at the end, by what the files say and by the entries of the input.
    ghost answered: { Self → Self.Found → List Record → Result Ending Cause };

    /// The files that are read, in order. It fails for want of memory alone.
    fn file_list(&self, alloc: Global) -> Result<FileList, OutOfMemory>
        requires { IsFit self.now }
        ensures { IfOk result (λ list. list ≡ reads self.now) };

    /// The format of the records that the input is read as, or none where it is left alone.
    fn record_format(&self) -> Option<Format>
        ensures { result ≡ records self.now };

    /// Whether errors of the walk end with status 1.
    fn has_soft_errors(&self) -> bool
        ensures { result ≡ is_soft self.now };

    /// Reads the files, each whole before the next, and what they say; where there are none, the
    /// store stays as it is, and has no say in it. The error is a failed read, or the first refusal
    /// among the files.
    fn read_files<S: Store>(
        &self,
        alloc: Global,
        list: &FileList,
        store: &mut S,
    ) -> Result<Self::Found, Cause>
        requires fit { IsFit self.now }
        requires list { list.now ≡ reads self.now }
        ensures reads { Reads S.files S.calls S.read_faults S.write_faults (files_say self.now)
            store.old store.new result }
        ensures unread { reads self.now ≡ [] → store.new ≡ store.old }
        ensures alone { reads self.now ≡ [] → (known : Files)
            → Gives (files_say self.now known).says result };

    /// Makes all that is written at the end. The error is a refusal of what the tool reads itself,
    /// or want of memory.
    fn answer(&self, alloc: Global, found: &Self::Found, tree: &Tree) -> Result<Ending, Cause>
        requires fit { IsFit self.now }
        requires tree { length tree.now < 2 ^ 31 }
        requires of_format { AreTaken (records self.now) tree.now }
        ensures meant { Gives (answered self.now found.now tree.now) result }
        ensures counts { (count : ℕ) → Counts count count result }
        ensures kinds { IfErr result IsInputCause }
        ensures saved { IfOk result (λ ending.
            option_map saved_name ending.saved ≡ output self.now) };
}
