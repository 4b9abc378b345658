ghost use Rattle.std.specs.Prelude.{◌≡◌, ◌↔◌, ◌<◌, ◌≤◌, ◌-◌, ◌^◌, ℕ, List, [], Result, Ok, Err};
ghost use Rattle.std.specs.Prelude.{length, vec_len, IfOk, IfErr};
ghost use Rattle.label_base.specs.Answers.{Answers};
ghost use Rattle.find_records.specs.Cause.{records_cause};
ghost use Rattle.find_records.specs.Grammar.{Means, records_from, records_of};
ghost use Rattle.find_records.specs.Reading.{RecordsAsKnown, RecordsCounts};
ghost use Rattle.find_records.specs.Record.{AreOfFormat, Record};
ghost use Rattle.find_records.specs.SoFar.{IsSound, meant_with};

use crate::fault::RecordsFault;
use crate::format::Format;
use crate::records::Records;
use crate::so_far::RecordsSoFar;
use input_output::{Source, Take};
use label_base::OutOfMemory;
use std::alloc::Global;

/// The most that is read.
#[derive(Clone, Copy, Debug, PartialEq, Eq)]
pub struct RecordLimits {
    /// The greatest number of records.
    pub records: u32,
    /// The greatest number of bytes.
    pub bytes: u64,
}

// Ends a record.
pub(crate) const NUL: u8 = 0;

// The most bytes that one call of the source is asked for.
const PIECE: usize = 262_144;

fn buffer(alloc: Global) -> Result<Vec<u8>, OutOfMemory>
    ensures { IfOk result (λ buf. vec_len buf ≡ PIECE) }
{
    Ok(vec![in alloc; 0; PIECE]?)
}

// Takes a source to its end, piece by piece into the same room.
fn take_pieces<I: Source>(
    alloc: Global,
    source: &mut I,
    format: Format,
    limits: RecordLimits,
    buf: &mut [u8],
    so_far: &mut RecordsSoFar,
) -> Result<(), RecordsFault>
    requires limits { limits.bytes < 2 ^ 64 - 1 }
    requires room { 0 < length buf.old }
    requires sound { IsSound so_far.old }
    requires most { so_far.old.most ≡ limits.records }
    requires nothing { (rest : List ℕ) →
        meant_with so_far.old rest ≡ records_from format limits.records 1 rest }
    ensures sound { IfOk result (λ _. IsSound so_far.new) }
    ensures most { IfOk result (λ _. so_far.new.most ≡ limits.records) }
    ensures known { IfOk result (λ _. (answer : Result (List Record) RecordsFault)
        → Answers (λ records. records) records_cause answer (meant_with so_far.new [])
        → RecordsAsKnown format (I.left source.old) (I.left source.new) limits answer) }
    ensures counts { IfOk result (λ _. (answer : Result (List Record) RecordsFault)
        → Answers (λ records. records) records_cause answer (meant_with so_far.new [])
        → RecordsCounts (I.faults source.old) (I.faults source.new) answer) }
    ensures of_format { IfOk result (λ _. (records : List Record)
        → meant_with so_far.new [] ≡ Ok records → AreOfFormat format records) }
    ensures fault { IfErr result (λ fault.
        RecordsAsKnown format (I.left source.old) (I.left source.new) limits (Err fault)) }
    ensures rose { IfErr result (λ fault.
        RecordsCounts (I.faults source.old) (I.faults source.new) (Err fault)) }
{
    let mut taken = 0u64;
    'pieces: while taken <= limits.bytes {
        let room = (limits.bytes - taken + 1).min(buf.len() as u64) as usize;
        let piece = &mut buf[..room];
        match source.read(piece) {
            Take::Got(count) => {
                so_far.take(alloc, &piece[..count])?;
                taken += count as u64;
            }
            Take::End => return Ok(()),
            Take::Failed => return Err(RecordsFault::ReadFault),
        }
    }
    Err(RecordsFault::TooLong)
}

/// Reads a source to its end, and the records of a format that it has, each ended by a NUL, as
/// find(1) writes them. Each record has a link count exactly where its format has one.
///
/// The first bad record decides, and what comes behind it is read and thrown away; on one record
/// the limit of their number comes first, then the NUL that a last one lacks, then its fields. At
/// most a byte more than the limit is taken, whatever the answer, a failed read included. Beside
/// the records stand one piece of the source and the front of one record at most.
pub fn read_records<I: Source>(
    alloc: Global,
    source: &mut I,
    format: Format,
    limits: RecordLimits,
) -> Result<Records, RecordsFault>
    requires { limits.bytes < 2 ^ 64 - 1 }
    ensures known { RecordsAsKnown format (I.left source.old) (I.left source.new) limits result }
    ensures counts { RecordsCounts (I.faults source.old) (I.faults source.new) result }
    ensures few { IfOk result (λ records. length records ≤ limits.records) }
    ensures of_format { IfOk result (λ records. AreOfFormat format records) }
{
    let mut buf = buffer(alloc)?;
    let mut so_far = RecordsSoFar::new(alloc, format, limits.records);
    take_pieces(
        alloc,
        source,
        format,
        limits,
        buf.as_mut_slice(),
        &mut so_far,
    )?;
    so_far.end()
}

/// A law on all bytes: what [`read_records`] reads of them is what the grammar of find(1) says,
/// each fault included. They give records exactly where they are such records, each ended by a NUL,
/// and no more than the limit; a fault names the first record that is bad, behind good ones. It
/// does nothing.
#[tactic(auto, using(crate::proofs::RunGrammar::run_means))]
pub fn records_follow_grammar(_format: Format, _limits: RecordLimits, _bytes: &[u8])
    ensures { (meant : _)
        → (records_of _format _limits _bytes.now ≡ meant) ↔ Means _format _limits.records _bytes.now
        meant }
{}
