ghost use Rattle.std.specs.Prelude.{◌≡◌, ◌⊎◌, [], List};
ghost use Rattle.run_faults.specs.Causes.{words_cause};
ghost use Rattle.run_endings.specs.Endings.{LineOrFront, WritesReport, ending_cause};
ghost use Rattle.run_faults.specs.Faults.{fault_line, status_of};
ghost use Rattle.run_faults.specs.declared.cause.Cause.TheVariants as causes;
ghost use Rattle.file_roles.specs.declared.list.NamedFile.{NamedFile};

use crate::ending::{End, Ending};
use file_roles::FileList;
use input_output::{Sink, write_all, write_text};
use label_base::Fault;
use run_faults::{Cause, Outcome, fault_line, status};
use std::alloc::Global;
use tool_words::Usage;

/// The fault line of want of memory. It takes none.
const OUT_OF_MEMORY_LINE: &str = "relabel: out of memory\n";

/// The fault line of a failed write. It takes no memory.
const WRITE_FAILED_LINE: &str = "relabel: write failed\n";

fn write_line<O: Sink>(out: &mut O, line: &[u8])
    ensures { LineOrFront O.written O.faults out.old out.new line.now }
{
    let _ = write_all(out, line);
}

/// Ends a run for want of memory, with its fault line. It takes none itself; where the sink fails,
/// a front of the line is there.
pub fn give_up<O: Sink>(out: &mut O) -> Cause
    ensures cause { result ≡ causes.OutOfMemory }
    ensures line { (files : List NamedFile)
        → LineOrFront O.written O.faults out.old out.new (fault_line files causes.OutOfMemory) }
{
    write_line(out, OUT_OF_MEMORY_LINE.as_bytes());
    Cause::OutOfMemory
}

/// Ends a run whose file could not be written, with its fault line. It takes no memory; where the
/// sink fails, a front of the line is there.
pub fn lose_dump<O: Sink>(out: &mut O) -> Cause
    ensures cause { result ≡ causes.WriteFault }
    ensures line { (files : List NamedFile)
        → LineOrFront O.written O.faults out.old out.new (fault_line files causes.WriteFault) }
{
    write_line(out, WRITE_FAILED_LINE.as_bytes());
    Cause::WriteFault
}

/// Ends a run by a refusal, with its fault line. Where there is no memory for the line, that is the
/// cause; where the sink fails, a front of the line is there.
pub fn refuse<O: Sink>(alloc: Global, files: &FileList, cause: Cause, out: &mut O) -> Cause
    ensures cause { (result ≡ cause) ⊎ (result ≡ causes.OutOfMemory) }
    ensures line { LineOrFront O.written O.faults out.old out.new (fault_line files.now result) }
{
    if let Cause::OutOfMemory = cause {
        return give_up(out);
    }
    match fault_line(alloc, files, &cause) {
        Ok(line) => {
            write_line(out, line.as_slice());
            cause
        }
        Err(_) => give_up(out),
    }
}

fn words_cause(fault: Fault<Usage>) -> Cause
    ensures { result ≡ words_cause fault }
{
    match fault {
        Fault::Why(wrong) => Cause::Usage {
            index: wrong.index,
            why: wrong.why,
        },
        Fault::OutOfMemory => Cause::OutOfMemory,
    }
}

/// Ends a run whose words are wrong, or found no memory, with its fault line; no file is known
/// then. Where there is no memory for the line, that is the cause.
pub fn refuse_words<O: Sink>(alloc: Global, fault: Fault<Usage>, out: &mut O) -> Cause
    ensures cause { (result ≡ words_cause fault) ⊎ (result ≡ causes.OutOfMemory) }
    ensures line { LineOrFront O.written O.faults out.old out.new (fault_line [] result) }
{
    refuse(alloc, &FileList::new(alloc), words_cause(fault), out)
}

fn ending_cause(end: End) -> Cause
    ensures { result ≡ ending_cause end }
{
    match end {
        End::Done => Cause::Done,
        End::WalkErrors { count } => Cause::WalkErrors { count },
        End::Differs { count } => Cause::Differs { count },
        End::Denied { finding } => Cause::Denied { finding },
    }
}

/// Writes the report, and ends a run as its ending says; where the sink fails, by that, with a
/// front of the report written.
pub fn finish<O: Sink>(ending: &Ending, out: &mut O) -> Cause
    ensures { WritesReport O.written O.faults out.old out.new ending.now result }
{
    match write_text(out, &ending.report) {
        Ok(()) => ending_cause(ending.end),
        Err(_) => Cause::WriteFault,
    }
}

/// What a run answers that ended so, where errors of a walk are soft or not.
pub fn outcome(cause: Cause, soft: bool) -> Outcome
    ensures cause { result.cause ≡ cause }
    ensures status { result.status ≡ status_of soft cause }
{
    Outcome {
        status: status(&cause, soft),
        cause,
    }
}
