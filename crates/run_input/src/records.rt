ghost use Rattle.std.specs.Prelude.{◌≡◌, ℕ, ◌≤◌, ◌<◌, ◌-◌, ◌^◌, [], Ok, None, Some, IsSome, IfOk};
ghost use Rattle.std.specs.Prelude.{IfErr, IfSome, OnOk, length};
ghost use Rattle.find_records.specs.Record.{AreOfFormat};
ghost use Rattle.find_records.specs.declared.format.Format.{Format};
ghost use Rattle.run_faults.specs.Causes.{Counts, Gives, IsInputCause};
ghost use Rattle.tree_model.specs.Entries.{tree_of};
ghost use Rattle.run_input.specs.Records.{AreTaken, entries_for, records_or_cause, records_read};
ghost use Rattle.run_input.specs.Records.{input_for, records_refusal};

use find_records::{Format, RecordLimits, Records, RecordsFault, read_records};
use input_output::Source;
use run_faults::{Cause, LimitKind};
use std::alloc::Global;
use tree_model::{Tree, TreeFault};

/// The greatest number of records.
pub const MOST_RECORDS: u32 = 2_097_152;
/// The greatest number of bytes of all records together.
pub const MOST_RECORD_BYTES: u64 = 536_870_912;

#[tactic(auto, using(crate::proofs::EntryCounts::tree_few))]
fn tree_from(alloc: Global, records: Records) -> Result<Tree, Cause>
    requires { length records < 2 ^ 32 }
    ensures answer { Gives (records_or_cause (tree_of records)) result }
    ensures counts { (count : ℕ) → Counts count count result }
    ensures kinds { IfErr result IsInputCause }
    ensures few { IfOk result (λ tree. length tree ≤ length records) }
    ensures of_format { IfOk result (λ tree. (format : Format) → AreOfFormat format records
        → AreOfFormat format tree) }
{
    match Tree::new(alloc, records) {
        Ok(tree) => Ok(tree),
        Err(TreeFault::Doubled { first, second }) => Err(Cause::Doubled { first, second }),
        Err(TreeFault::OutOfMemory) => Err(Cause::OutOfMemory),
    }
}

fn refusal(fault: RecordsFault) -> Cause
    ensures value { result ≡ records_refusal fault }
    ensures kind { IsInputCause result }
{
    match fault {
        RecordsFault::ReadFault => Cause::ReadFault,
        RecordsFault::TooLong => Cause::Limit {
            which: LimitKind::RecordBytes,
        },
        RecordsFault::TooMany => Cause::Limit {
            which: LimitKind::Records,
        },
        RecordsFault::Refused { number, why } => Cause::RecordRefused { number, why },
        RecordsFault::Unended { number } => Cause::Unended { number },
        RecordsFault::OutOfMemory => Cause::OutOfMemory,
    }
}

// The tree of no records.
#[tactic(auto, unfolding(tree_model::specs::Entries::doubled, tree_model::specs::Entries::entries_of))]
fn no_entries(alloc: Global) -> Result<Tree, Cause>
    ensures answer { Gives (Ok []) result }
    ensures counts { (count : ℕ) → Counts count count result }
    ensures kinds { IfErr result IsInputCause }
    ensures few { IfOk result (λ tree. length tree ≤ MOST_RECORDS) }
{
    tree_from(alloc, Records::new(alloc))
}

/// Reads the input to its end, as the tree of its records of a format.
///
/// The error is a failed read, a limit that is passed, the first record that is none, or the first
/// two of one path.
#[tactic(auto, unfolding(crate::specs::Records::records_read))]
pub fn read_tree<I: Source>(alloc: Global, format: Format, input: &mut I) -> Result<Tree, Cause>
    ensures answer { IfSome (I.left input.old) (λ bytes. Gives (records_read format bytes) result) }
    ensures ended { OnOk result (IfSome (I.left input.old) (λ bytes. I.left input.new ≡ Some [])) }
    ensures counts { Counts (I.faults input.old) (I.faults input.new) result }
    ensures kinds { IfErr result IsInputCause }
    ensures few { IfOk result (λ tree. length tree ≤ MOST_RECORDS) }
    ensures of_format { IfOk result (λ tree. AreOfFormat format tree) }
{
    let limits = RecordLimits {
        records: MOST_RECORDS,
        bytes: MOST_RECORD_BYTES,
    };
    match read_records(alloc, input, format, limits) {
        Ok(records) => tree_from(alloc, records),
        Err(fault) => Err(refusal(fault)),
    }
}

/// Reads the records of a tool that takes those of a format, as a tree. One that takes none leaves
/// the input alone, and has the tree of no records.
///
/// The error is a failed read, a limit that is passed, the first record that is none, or the first
/// two of one path.
#[tactic(auto, unfolding(crate::specs::Records::entries_for))]
pub fn read_entries<I: Source>(
    alloc: Global,
    records: Option<Format>,
    input: &mut I,
) -> Result<Tree, Cause>
    ensures answer { IfSome (input_for records (I.left input.old)) (λ bytes.
        Gives (entries_for records bytes) result) }
    ensures ended { OnOk result (IsSome records
        → IfSome (I.left input.old) (λ bytes. I.left input.new ≡ Some [])) }
    ensures untouched { records ≡ None → input.new ≡ input.old }
    ensures counts { Counts (I.faults input.old) (I.faults input.new) result }
    ensures kinds { IfErr result IsInputCause }
    ensures few { IfOk result (λ tree. length tree ≤ MOST_RECORDS) }
    ensures of_format { IfOk result (λ tree. AreTaken records tree) }
{
    match records {
        Some(format) => read_tree(alloc, format, input),
        None => no_entries(alloc),
    }
}
