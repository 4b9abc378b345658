ghost use Rattle.std.specs.Prelude.{◌<◌, ◌≤◌, ◌^◌, length};

use file_roles::Part;
use label_base::{Asked, EntryKind, OutOfMemory};
use pattern_match::States;
use policy_lists::{Line, Lists, Rows, lines_of};
use spec_reader::read_specs;
use std::alloc::Global;

const TWO: &[u8] = b"/.* <<none>>\n/a -- <<none>>\n";

// A line behind a byte: whether it can still hold a text, holds this one, and holds all behind it.
fn states_behind(alloc: Global, line: &Line, byte: u8) -> Result<(bool, bool, bool), OutOfMemory> {
    let mut states = States::with_room(alloc, line.words())?;
    line.restart(&mut states);
    line.step(&mut states, byte);
    let alive = line.alive(&states);
    let accepts = line.accepts(&states);
    Ok((alive, accepts, line.covers(&mut states)))
}

// The lists of two lines, the second before the first, behind two bytes: which line decides there,
// and whether there is none.
fn decided_behind(
    alloc: Global,
    lines: &[Line],
    byte: u8,
    asked: Asked,
) -> Result<(Option<usize>, bool), OutOfMemory>
    requires two { 2 ≤ length lines.now }
    requires some { 0 < byte }
{
    let mut lists = Lists::new(alloc, lines)?;
    let start = lists.start(alloc, lines, &[1, 0])?;
    let list = lists.step(alloc, lines, start, b'/')?;
    let list = lists.step(alloc, lines, list, byte)?;
    Ok((lists.decides(lines, list, asked), lists.has_none(list)))
}

// How many lists and nodes there are behind a byte.
fn counts_behind(alloc: Global, lines: &[Line], byte: u8) -> Result<(usize, usize), OutOfMemory>
    requires two { 2 ≤ length lines.now }
    requires some { 0 < byte }
{
    let mut lists = Lists::new(alloc, lines)?;
    let start = lists.start(alloc, lines, &[1, 0])?;
    lists.step(alloc, lines, start, byte)?;
    Ok((lists.len(), lists.nodes()))
}

fn lines_read(alloc: Global, specs: &[u8]) -> Option<Vec<Line>>
    requires { length specs.now < 2 ^ 32 }
{
    let specs = read_specs(alloc, specs, Part::Base, 9).ok()?;
    lines_of(alloc, specs).ok()
}

fn first_behind(alloc: Global, specs: &[u8], byte: u8) -> Option<(bool, bool, bool)>
    requires { length specs.now < 2 ^ 32 }
{
    let lines = lines_read(alloc, specs)?;
    states_behind(alloc, lines.first()?, byte).ok()
}

fn first_applies(alloc: Global, specs: &[u8], asked: Asked) -> Option<bool>
    requires { length specs.now < 2 ^ 32 }
{
    let lines = lines_read(alloc, specs)?;
    Some(lines.first()?.applies(asked))
}

fn decided(alloc: Global, specs: &[u8], byte: u8, asked: Asked) -> Option<(Option<usize>, bool)>
    requires specs { length specs.now < 2 ^ 32 }
    requires some { 0 < byte }
{
    let lines = lines_read(alloc, specs)?;
    if lines.len() < 2 {
        return None;
    }
    decided_behind(alloc, lines.as_slice(), byte, asked).ok()
}

fn counts(alloc: Global, specs: &[u8], byte: u8) -> Option<(usize, usize)>
    requires specs { length specs.now < 2 ^ 32 }
    requires some { 0 < byte }
{
    let lines = lines_read(alloc, specs)?;
    if lines.len() < 2 {
        return None;
    }
    counts_behind(alloc, lines.as_slice(), byte).ok()
}

// The numbers of three rows, the third of which is the first again, and how many there are then.
fn numbered(alloc: Global) -> Result<(usize, usize, usize, usize), OutOfMemory> {
    let mut rows = Rows::new(alloc);
    let first = rows.number_of(alloc, &[7])?;
    let second = rows.number_of(alloc, &[7, 7])?;
    let third = rows.number_of(alloc, &[7])?;
    Ok((first, second, third, rows.len()))
}

fn is_kept(alloc: Global, row: &[u64]) -> Result<bool, OutOfMemory> {
    let mut rows = Rows::new(alloc);
    let number = rows.number_of(alloc, row)?;
    if number >= rows.len() {
        return Ok(false);
    }
    Ok(rows.row(number) == row)
}

#[test]
fn line_behind_a_byte(rt: HostRuntime) {
    let alloc = rt.alloc();
    assert_eq!(rt; first_behind(alloc, TWO, b'/'), Some((true, true, true)));
    assert_eq!(rt; first_behind(alloc, TWO, b'a'), Some((false, false, false)));
}

#[test]
fn line_of_a_kind(rt: HostRuntime) {
    let specs = b"/a -- <<none>>\n".as_slice();
    let asked = Asked::Of(EntryKind::Directory);
    assert_eq!(rt; first_applies(rt.alloc(), specs, asked), Some(false));
    assert_eq!(rt; first_applies(rt.alloc(), specs, Asked::Any), Some(true));
}

#[test]
fn line_that_decides(rt: HostRuntime) {
    let alloc = rt.alloc();
    let asked = Asked::Of(EntryKind::Directory);
    assert_eq!(rt;
        decided(alloc, TWO, b'a', Asked::Any),
        Some((Some(1), false))
    );
    assert_eq!(rt; decided(alloc, TWO, b'a', asked), Some((Some(0), false)));
}

#[test]
fn no_line_decides(rt: HostRuntime) {
    let specs = b"/a <<none>>\n/b <<none>>\n".as_slice();
    assert_eq!(rt;
        decided(rt.alloc(), specs, b'c', Asked::Any),
        Some((None, true))
    );
}

// The lists before and behind the slash have two nodes each.
#[test]
fn lists_and_nodes_are_counted(rt: HostRuntime) {
    assert_eq!(rt; counts(rt.alloc(), TWO, b'/'), Some((2, 4)));
}

#[test]
fn equal_rows_have_one_number(rt: HostRuntime) {
    assert_eq!(rt; numbered(rt.alloc()).ok(), Some((0, 1, 0, 2)));
}

#[test]
fn rows_are_kept(rt: HostRuntime) {
    assert_eq!(rt; is_kept(rt.alloc(), &[3, 5]).ok(), Some(true));
}
