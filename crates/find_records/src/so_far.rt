ghost use Rattle.std.specs.Prelude.{◌≡◌, ◌∷◌, ◌++◌, ◌<◌, ◌≤◌, ◌+◌, [], Contains, List, ℕ, None, Ok};
ghost use Rattle.std.specs.Prelude.{Err, true, false, length, nat_lt, IfOk};
ghost use Rattle.label_base.specs.Answers.{Answers};
ghost use Rattle.find_records.specs.Cause.{records_cause};
ghost use Rattle.find_records.specs.Grammar.{meaning, records_from};
ghost use Rattle.find_records.specs.Reading.{with_one};
ghost use Rattle.find_records.specs.SoFar.{IsSound, meant_with, refused_or};

use crate::fault::RecordsFault;
use crate::format::Format;
use crate::reading::NUL;
use crate::record::add_record;
use crate::records::Records;
use label_base::{Bytes, Fault, OutOfMemory, cut_at};
use std::alloc::Global;

// The records so far, and what stands behind them.
#[derive(Drop)]
pub struct RecordsSoFar {
    // Which fields records have.
    pub format: Format,
    // The greatest number of records.
    pub most: u32,
    pub records: Records,
    // The front of a record whose end has not come.
    pub pending: Bytes,
    // Why the first bad record is refused. What comes behind it is thrown away.
    pub refused: Option<RecordsFault>,
}

// The fault, unless it is want of memory.
fn cause_of_fault(fault: RecordsFault) -> Option<RecordsFault>
    ensures { result ≡ records_cause fault }
{
    match fault {
        RecordsFault::OutOfMemory => None,
        _ => Some(fault),
    }
}

// Whether there is no room for another record.
fn is_full(records: &Records, most: u32) -> bool
    ensures { result ≡ nat_lt most (length records.now + 1) }
{
    records.len() >= most
}

// Reads one record without its NUL, the next one after the others, and adds it to them.
#[tactic(auto, unfolding(crate::specs::Grammar::meaning))]
fn add_numbered(
    alloc: Global,
    records: &mut Records,
    format: Format,
    most: u32,
    bytes: &[u8],
) -> Result<(), RecordsFault>
    requires { length records.old ≤ most }
    ensures answer { Answers (λ _. records.new) records_cause result (with_one records.old
        (meaning format most (length records.old + 1) bytes.now true)) }
    ensures few { length records.new ≤ most }
{
    if is_full(records, most) {
        return Err(RecordsFault::TooMany);
    }
    let number = records.len() + 1;
    match add_record(alloc, records, format, bytes) {
        Ok(()) => Ok(()),
        Err(Fault::Why(why)) => Err(RecordsFault::Refused { number, why }),
        Err(Fault::OutOfMemory) => Err(RecordsFault::OutOfMemory),
    }
}

// Why bytes without a NUL are no record behind the others.
#[tactic(auto, unfolding(crate::specs::Grammar::meaning))]
fn unended(records: &Records, most: u32) -> RecordsFault
    requires { length records.now ≤ most }
    ensures { (format : _) → (bytes : List ℕ) → meaning format most (length records.now + 1) bytes
        false ≡ Err result }
{
    if is_full(records, most) {
        return RecordsFault::TooMany;
    }
    RecordsFault::Unended {
        number: records.len() + 1,
    }
}

// Adds the next record, or tells why it is refused.
fn add_or_refuse(
    alloc: Global,
    records: &mut Records,
    format: Format,
    most: u32,
    bytes: &[u8],
) -> Result<Option<RecordsFault>, OutOfMemory>
    requires { length records.old ≤ most }
    ensures added { IfOk result (λ refused. refused_or refused (Ok records.new)
        ≡ with_one records.old (meaning format most (length records.old + 1) bytes.now true)) }
    ensures few { length records.new ≤ most }
{
    match add_numbered(alloc, records, format, most, bytes) {
        Ok(()) => Ok(None),
        Err(fault) => match cause_of_fault(fault) {
            Some(why) => Ok(Some(why)),
            None => Err(OutOfMemory),
        },
    }
}

// Takes the end of a record, without its NUL. A record of which nothing came before isn't copied.
fn take_ended(alloc: Global, so_far: &mut RecordsSoFar, bytes: &[u8]) -> Result<(), OutOfMemory>
    requires sound { IsSound so_far.old }
    requires none { so_far.old.refused ≡ None }
    requires unended { ¬ Contains bytes.now NUL }
    ensures sound { IfOk result (λ _. IsSound so_far.new) }
    ensures most { IfOk result (λ _. so_far.new.most ≡ so_far.old.most) }
    ensures meant { IfOk result (λ _. (rest : List ℕ) →
        meant_with so_far.old (bytes.now ++ NUL ∷ rest) ≡ meant_with so_far.new rest) }
{
    let format = so_far.format;
    let most = so_far.most;
    if so_far.pending.len() == 0 {
        so_far.refused = add_or_refuse(alloc, &mut so_far.records, format, most, bytes)?;
        return Ok(());
    }
    so_far.pending.push(bytes)?;
    let whole = so_far.pending.as_slice();
    so_far.refused = add_or_refuse(alloc, &mut so_far.records, format, most, whole)?;
    so_far.pending = Bytes::new(alloc);
    Ok(())
}

// Takes the first record of a piece, or all of a piece without a NUL: what stands behind it.
fn take_first<'a>(
    alloc: Global,
    so_far: &mut RecordsSoFar,
    piece: &'a [u8],
) -> Result<&'a [u8], OutOfMemory>
    requires sound { IsSound so_far.old }
    requires some { 0 < length piece.now }
    ensures sound { IfOk result (λ _. IsSound so_far.new) }
    ensures most { IfOk result (λ _. so_far.new.most ≡ so_far.old.most) }
    ensures meant { IfOk result (λ behind. (rest : List ℕ) →
        meant_with so_far.old (piece.now ++ rest) ≡ meant_with so_far.new (behind.now ++ rest)) }
    ensures shorter { IfOk result (λ behind. length behind.now < length piece.now) }
{
    if so_far.refused.is_some() {
        return Ok(&[]);
    }
    let (front, behind) = cut_at(NUL, piece);
    match behind {
        Some(behind) => {
            take_ended(alloc, so_far, front)?;
            Ok(behind)
        }
        None => {
            so_far.pending.push(piece)?;
            Ok(&[])
        }
    }
}

impl RecordsSoFar {
    // Nothing is read.
    pub fn new(alloc: Global, format: Format, most: u32) -> RecordsSoFar
        ensures sound { IsSound result }
        ensures most { result.most ≡ most }
        ensures meant { (rest : List ℕ) → meant_with result rest ≡ records_from format most 1 rest }
    {
        RecordsSoFar {
            format,
            most,
            records: Records::new(alloc),
            pending: Bytes::new(alloc),
            refused: None,
        }
    }

    // Takes the next piece: whatever comes behind it, the same is meant.
    pub fn take(&mut self, alloc: Global, piece: &[u8]) -> Result<(), OutOfMemory>
        requires { IsSound self.old }
        ensures sound { IfOk result (λ _. IsSound self.new) }
        ensures most { IfOk result (λ _. self.new.most ≡ self.old.most) }
        ensures meant { IfOk result (λ _. (rest : List ℕ) →
            meant_with self.old (piece.now ++ rest) ≡ meant_with self.new rest) }
    {
        let mut left = piece;
        'records: while !left.is_empty() {
            left = take_first(alloc, self, left)?;
        }
        Ok(())
    }

    // What all that was read means, when nothing comes behind it.
    pub fn end(self) -> Result<Records, RecordsFault>
        requires { IsSound self }
        ensures answer { Answers (λ records. records) records_cause result (meant_with self []) }
        ensures few { IfOk result (λ records. length records ≤ self.most) }
    {
        let RecordsSoFar {
            format: _,
            most,
            records,
            pending,
            refused,
        } = self;
        match refused {
            Some(fault) => return Err(fault),
            None => (),
        }
        if pending.len() > 0 {
            return Err(unended(&records, most));
        }
        Ok(records)
    }
}
