ghost use Rattle.std.specs.Prelude.{◌≡◌, ◌++◌, ◌∷◌, [], ◌<◌, ◌-◌, ◌+◌, ◌^◌, length, slice_get};
ghost use Rattle.std.specs.Prelude.{None, Some, IfErr, IfOk, OnErr, OnOk, vec_len, vec_capacity};
ghost use Rattle.std.specs.Option.{option_map};
ghost use Rattle.label_base.specs.Answers.{Answers, fault_cause};
ghost use Rattle.file_paths.specs.Path.{path_names, path_read};
ghost use Rattle.file_paths.specs.PathRef.{path_of};
ghost use Rattle.context_syntax.specs.Label.{same_label};
ghost use Rattle.find_records.specs.Record.{Record};
ghost use Rattle.find_records.specs.Entry.{entry_of, record_seen};
ghost use Rattle.find_records.specs.Labelled.{with_labels};
ghost use Rattle.find_records.specs.Labels.{Extends};
ghost use Rattle.find_records.specs.Places.{ArePlaces, records_at};
ghost use Rattle.find_records.specs.Rows.{IsRowWithin, record_in};

use crate::entry::{Entry, RawRecord};
use crate::labelled::{copy_labels, profile_rows};
use crate::lay::{is_given, lay};
use crate::profiles::Profiles;
use crate::row::{RecordRow, text_at};
use context_syntax::Label;
use file_paths::{PathFault, PathRef, add_path};
use label_base::{Fault, OutOfMemory, Row};
use std::alloc::Global;
use std::marker::Model;

/// Records, seen as their list. A record costs no allocation of its own.
pub struct Records {
    // The texts of all paths, one behind the other.
    texts: Vec<u8>,
    profiles: Profiles,
    rows: Vec<RecordRow>,
}

// By hand: one call for an owner, where a derived drop is a step for each field.
impl Drop for Records {
    fn drop(self) {
        let Records {
            texts: _,
            profiles: _,
            rows: _,
        } = self;
    }
}

impl Model for Records {
    ghost use Rattle.std.specs.Prelude.{List};
    ghost use Rattle.find_records.specs.Record.{Record};
    ghost use Rattle.find_records.specs.Rows.{AreRecordRows, records_in};

    ghost Value = { List Record };

    ghost view = { λ r. records_in r.texts.items r.profiles r.rows.items };

    ghost invariant = { λ r. AreRecordRows r.texts.items r.profiles r.rows.items };
}

fn reserve_row(rows: &mut Vec<RecordRow>) -> Result<(), PathFault>
    ensures same { rows.new.items ≡ rows.old.items }
    ensures room { OnOk result (vec_len rows.new < vec_capacity rows.new) }
    ensures err { IfErr result (λ fault. fault_cause fault ≡ None) }
{
    match rows.reserve(1) {
        Ok(()) => Ok(()),
        Err(_) => Err(Fault::OutOfMemory),
    }
}

// Adds a record's text and its profile, and makes its row.
fn row_of(
    alloc: Global,
    texts: &mut Vec<u8>,
    profiles: &mut Profiles,
    raw: &RawRecord<'_>,
) -> Result<RecordRow, PathFault>
    ensures answer { Answers (λ _. path_names raw.now.path.now) fault_cause result
        (path_read raw.now.path.now) }
    ensures value { IfOk result (λ row.
        record_in texts.new.items profiles.new row ≡ record_seen raw.now) }
    ensures within { IfOk result (λ row. IsRowWithin texts.new.items profiles.new row) }
    ensures more_texts { Extends texts.old.items texts.new.items }
    ensures more_profiles { Extends profiles.old profiles.new }
    ensures same { OnErr result (profiles.new ≡ profiles.old) }
{
    let at = texts.len();
    add_path(alloc, texts, raw.path)?;
    let size = (texts.len() - at) as u16;
    let profile = profiles.number_of(alloc, raw)?;
    Ok(RecordRow {
        inode: raw.inode,
        at,
        profile,
        size,
        kind: raw.kind,
    })
}

impl Records {
    /// No records.
    pub fn new(alloc: Global) -> Records
        ensures { result ≡ [] }
    {
        Records {
            texts: Vec::new(alloc),
            profiles: Profiles::new(alloc),
            rows: Vec::new(alloc),
        }
    }

    /// How many records there are.
    pub fn len(&self) -> u32
        ensures { result ≡ length self.now }
    {
        self.rows.len() as u32
    }

    /// Adds a record behind the others. After a refusal the records are as they were.
    pub fn push(&mut self, alloc: Global, raw: &RawRecord<'_>) -> Result<(), PathFault>
        requires { length self.old < 2 ^ 32 - 1 }
        ensures answer { Answers (λ _. path_names raw.now.path.now) fault_cause result
            (path_read raw.now.path.now) }
        ensures ok { OnOk result (self.new ≡ self.old ++ record_seen raw.now ∷ []) }
        ensures err { OnErr result (self.new ≡ self.old) }
    {
        reserve_row(&mut self.rows)?;
        let row = row_of(alloc, &mut self.texts, &mut self.profiles, raw)?;
        match self.rows.push(row) {
            Ok(()) => Ok(()),
            Err(_) => unreachable!(),
        }
    }

    /// The record at a place, counted from 0.
    pub fn entry(&self, i: u32) -> Entry<'_>
        requires { i < length self.now }
        ensures { slice_get self.now i ≡ Some (entry_of result) }
    {
        let row = &self.rows[i as usize];
        let profile = self.profiles.get(row.profile);
        Entry {
            kind: row.kind,
            device: profile.device,
            inode: row.inode,
            links: profile.links,
            label: profile.label,
            path: PathRef::of_text(text_at(self.texts.as_slice(), row)),
        }
    }

    /// Whether the records at two places, counted from 0, have the same label. Where their numbers
    /// differ, the labels are compared.
    pub fn has_same_label(&self, i: u32, j: u32) -> bool
        requires first { i < length self.now }
        requires second { j < length self.now }
        ensures { (a b : Record) → slice_get self.now i ≡ Some a → slice_get self.now j ≡ Some b
            → result ≡ same_label a.label b.label }
    {
        self.profiles.has_same_label(self.rows[i as usize].profile, self.rows[j as usize].profile)
    }

    /// The path of the record at a place, counted from 0.
    pub fn path(&self, i: u32) -> PathRef<'_>
        requires { i < length self.now }
        ensures { option_map (λ r. r.path) (slice_get self.now i) ≡ Some (path_of result) }
    {
        self.entry(i).path
    }

    /// The records as they are, but for their labels: each has a copy of the one among these,
    /// counted from 0, whose number stands at its place.
    pub fn with_labels(
        &self,
        alloc: Global,
        numbers: &[u32],
        labels: &Row<Label>,
    ) -> Result<Records, OutOfMemory>
        requires counted { length numbers.now ≡ length self.now }
        requires known { ArePlaces (length labels.now) numbers.now }
        requires few { length labels.now < 2 ^ 32 }
        ensures { IfOk result (λ records.
            records ≡ with_labels labels.now numbers.now self.now) }
    {
        let copies = copy_labels(alloc, labels)?;
        let profiled = profile_rows(alloc, &self.profiles, self.rows.as_slice(), numbers)?;
        let texts = Vec::from_slice(alloc, self.texts.as_slice())?;
        Ok(Records {
            texts,
            profiles: Profiles::of_rows(alloc, copies, profiled.profiles),
            rows: profiled.rows,
        })
    }

    /// The records at these places, counted from 0, in the order of the places: their texts are
    /// laid anew, one behind the other, unless each stands where it stood.
    pub fn in_order(self, alloc: Global, places: &[u32]) -> Result<Records, OutOfMemory>
        requires few { length places.now < 2 ^ 32 }
        requires known { ArePlaces (length self) places.now }
        ensures { IfOk result (λ records. records ≡ records_at self places.now) }
    {
        if is_given(self.rows.len(), places) {
            return Ok(self);
        }
        let laid = lay(alloc, self.texts.as_slice(), self.rows.as_slice(), places)?;
        let Records {
            texts: _,
            profiles,
            rows: _,
        } = self;
        Ok(Records {
            texts: laid.texts,
            profiles,
            rows: laid.rows,
        })
    }
}
