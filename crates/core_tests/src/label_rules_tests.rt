ghost use Rattle.std.specs.Prelude.{◌≡◌, ◌<◌, ◌^◌, length};

use context_syntax::{Context, Label, TypeNames, read_customizable};
use file_paths::{NormPath, PathRef};
use file_roles::Part;
use find_records::{Format, RecordLimits, Records, read_records};
use input_output::MemSource;
use label_base::{Asked, Bytes, OutOfMemory, Row, Steps};
use label_rules::{
    LabelAfter, ListedRules, Rules, conflict_line, decide, does_give, given_at, given_by, given_in,
    label_by, look_up, look_up_path, spec_at, verdict_line,
};
use path_subs::{SubList, Subs, read_subs};
use report_text::Message;
use spec_match::{RuleSet, Scratch};
use spec_reader::read_specs;
use std::alloc::Global;
use std::marker::Brand;
use std::sync::ledger::{Blank, Ledger};
use std::test::Fail;

fn subs_to_srv(alloc: Global) -> Result<Subs, Fail> {
    let first = SubList::new(alloc, read_subs(alloc, b"/data /srv\n")?)?;
    Ok(Subs {
        first,
        second: SubList::new(alloc, Row::new(alloc))?,
    })
}

// Rules by these specifications, where `/data` stands for `/srv`.
fn rules_by(alloc: Global, specs: &[u8]) -> Result<Rules, Fail>
    requires { length specs.now < 2 ^ 32 }
{
    let rules = RuleSet::new(alloc, read_specs(alloc, specs, Part::Base, 9)?)?;
    Ok(Rules {
        rules,
        subs: subs_to_srv(alloc)?,
        types: TypeNames::new(alloc),
    })
}

// The same as they were read.
fn listed_by(alloc: Global, specs: &[u8]) -> Result<ListedRules, Fail>
    requires { length specs.now < 2 ^ 32 }
{
    let subs = subs_to_srv(alloc)?;
    let specs = read_specs(alloc, specs, Part::Base, 9)?;
    Ok(ListedRules::new(specs, subs, TypeNames::new(alloc)))
}

fn one_directory(alloc: Global) -> Result<Records, Fail> {
    let text = Bytes::copy_of(alloc, b"d 1 2 ? /data\0")?;
    let mut input = MemSource::new(text, 99, Row::new(alloc));
    let most = RecordLimits {
        bytes: 99,
        records: 1,
    };
    Ok(read_records(alloc, &mut input, Format::One, most)?)
}

fn index_of<L: Ledger>(
    alloc: Global,
    rules: &Rules,
    records: &Records,
    blank: Blank,
) -> Result<Option<u32>, OutOfMemory>
    requires name { blank.name ≡ L.name }
    requires parts { blank.parts ≡ L.parts }
    requires some { 0 < blank.parts }
{
    if records.len() == 0 {
        return Ok(None);
    }
    let mut scratch = Scratch::new(alloc, &rules.rules)?;
    let mut steps = Steps::<L>::open(blank);
    look_up(alloc, rules, &records.entry(0), &mut scratch, &mut steps)
}

fn is_kept_as_it_is(alloc: Global, rules: &Rules) -> Result<bool, Fail> {
    let records = one_directory(alloc)?;
    let index = index_of::<Brand>(alloc, rules, &records, Blank::new(1))?;
    Ok(index == Some(1) && !does_give(rules, index))
}

#[test]
fn an_entry_is_looked_up(rt: HostRuntime) -> Result<(), Fail> {
    let rules = rules_by(
        rt.alloc(),
        b"/opt u:r:o_t:s0\n/srv -d <<none>>\n/srv -- u:r:s_t:s0\n",
    )?;
    assert!(rt; is_kept_as_it_is(rt.alloc(), &rules)?);
    Ok(())
}

fn index_at<L: Ledger>(
    alloc: Global,
    rules: &Rules,
    path: &PathRef<'_>,
    blank: Blank,
) -> Result<Option<u32>, OutOfMemory>
    requires name { blank.name ≡ L.name }
    requires parts { blank.parts ≡ L.parts }
    requires some { 0 < blank.parts }
{
    let mut scratch = Scratch::new(alloc, &rules.rules)?;
    let mut steps = Steps::<L>::open(blank);
    look_up_path(alloc, rules, path, Asked::Any, &mut scratch, &mut steps)
}

fn is_given_by_the_last(alloc: Global, rules: &Rules) -> Result<bool, Fail> {
    let path = NormPath::read(alloc, b"/data")?;
    let index = index_at::<Brand>(alloc, rules, &path.path(), Blank::new(1))?;
    let by_spec = match spec_at(rules, index) {
        Some(spec) => given_by(spec),
        None => None,
    };
    Ok(index == Some(1) && by_spec.is_some() && given_at(rules, index).is_some())
}

#[test]
fn the_last_specification_gives_its_context(rt: HostRuntime) -> Result<(), Fail> {
    let rules = rules_by(rt.alloc(), b"/srv u:r:o_t:s0\n/srv -- u:r:s_t:s0\n")?;
    assert!(rt; is_given_by_the_last(rt.alloc(), &rules)?);
    Ok(())
}

fn is_given_in_the_list(alloc: Global, rules: &ListedRules) -> Result<bool, Fail> {
    let path = NormPath::read(alloc, b"/data")?;
    let index = rules.look_up_path(alloc, &path.path(), Asked::Any)?;
    Ok(index == Some(1) && rules.given_at(index).is_some())
}

#[test]
fn rules_in_a_list_answer_alike(rt: HostRuntime) -> Result<(), Fail> {
    let listed = listed_by(rt.alloc(), b"/srv u:r:o_t:s0\n/srv -- u:r:s_t:s0\n")?;
    assert!(rt; is_given_in_the_list(rt.alloc(), &listed)?);
    let ready = listed.into_rules(rt.alloc())?;
    assert!(rt; is_given_by_the_last(rt.alloc(), &ready)?);
    Ok(())
}

// Whether a label gives way to `u:r:srv_t:s0`.
fn is_replaced_by_policy(
    alloc: Global,
    found: &Label,
    forced: bool,
    types: &TypeNames,
) -> Result<bool, Fail> {
    let wanted = Context::read(alloc, b"u:r:srv_t:s0")?;
    Ok(given_in(&decide(found, &wanted, forced, types)).is_some())
}

#[test]
fn an_absent_label_gives_way(rt: HostRuntime) -> Result<(), Fail> {
    let types = TypeNames::new(rt.alloc());
    assert!(rt; is_replaced_by_policy(rt.alloc(), &Label::Absent, false, &types)?);
    Ok(())
}

// Whether a label gives way where `web_t` is an administrator's.
fn is_replaced(alloc: Global, found: &Label, forced: bool) -> Result<bool, Fail> {
    let types = read_customizable(alloc, b"web_t\n")?;
    is_replaced_by_policy(alloc, found, forced, &types)
}

#[test]
fn a_label_of_the_same_type_gives_way_by_force(rt: HostRuntime) -> Result<(), Fail> {
    let found = Label::read(rt.alloc(), b"w:r:srv_t:s0")?;
    assert!(rt; !is_replaced(rt.alloc(), &found, false)?);
    assert!(rt; is_replaced(rt.alloc(), &found, true)?);
    Ok(())
}

#[test]
fn a_customizable_type_stays(rt: HostRuntime) -> Result<(), Fail> {
    let found = Label::read(rt.alloc(), b"u:r:web_t:s0")?;
    assert!(rt; !is_replaced(rt.alloc(), &found, false)?);
    Ok(())
}

fn is_given(label: &LabelAfter<'_>) -> bool {
    match label {
        LabelAfter::Kept(_) => false,
        LabelAfter::Given(_) => true,
    }
}

#[test]
fn a_change_is_told(rt: HostRuntime) -> Result<(), Fail> {
    let path = NormPath::read(rt.alloc(), b"/srv")?;
    let wanted = Context::read(rt.alloc(), b"u:r:srv_t:s0")?;
    let verdict = decide(&Label::Absent, &wanted, true, &TypeNames::new(rt.alloc()));
    let line = verdict_line(&path.path(), &Label::Absent, true, &verdict);
    assert!(rt; matches!(line, Some(Message::Relabel { dry: true, .. })));
    assert!(rt; is_given(&label_by(&verdict, &Label::Absent)));
    Ok(())
}

#[test]
fn another_context_is_a_conflict(rt: HostRuntime) -> Result<(), Fail> {
    let path = NormPath::read(rt.alloc(), b"/srv")?;
    let one = Context::read(rt.alloc(), b"u:r:a_t:s0")?;
    let other = Context::read(rt.alloc(), b"u:r:b_t:s0")?;
    let line = conflict_line(&path.path(), &path.path(), Some(&one), Some(&other));
    assert!(rt; line.is_some());
    Ok(())
}
