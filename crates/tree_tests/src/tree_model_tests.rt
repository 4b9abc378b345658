use context_syntax::Label;
use file_paths::NormPath;
use find_records::{RawRecord, Records};
use label_base::{EntryKind, Row};
use std::alloc::Global;
use std::test::Fail;
use tree_model::{
    Choice, Tree, TreeFault, absent_have_no_entry, groups_are_inodes, jobs_are_directories,
};

// What is told of an entry on device 1.
fn told<'a>(kind: EntryKind, inode: u64, path: &'a [u8]) -> RawRecord<'a> {
    RawRecord {
        kind,
        device: 1,
        inode,
        links: None,
        label: b"u:r:a_t:s0".as_slice(),
        path,
    }
}

fn file<'a>(inode: u64, path: &'a [u8]) -> RawRecord<'a> {
    told(EntryKind::Regular, inode, path)
}

fn directory<'a>(inode: u64, path: &'a [u8]) -> RawRecord<'a> {
    told(EntryKind::Directory, inode, path)
}

fn tree_from(alloc: Global, all: &[RawRecord<'_>]) -> Result<Tree, TreeFault> {
    let mut records = Records::new(alloc);
    for told in all {
        if records.len() == u32::MAX || records.push(alloc, told).is_err() {
            return Err(TreeFault::OutOfMemory);
        }
    }
    if records.len() == u32::MAX {
        return Err(TreeFault::OutOfMemory);
    }
    Tree::new(alloc, records)
}

fn fault_of(alloc: Global, all: &[RawRecord<'_>]) -> Option<TreeFault> {
    tree_from(alloc, all).err()
}

// Whether a path's entry has this index; none where there is no such entry.
fn stands(alloc: Global, tree: &Tree, path: &[u8], wanted: Option<u32>) -> bool {
    match NormPath::read(alloc, path) {
        Ok(path) => tree.find(&path.path()) == wanted,
        Err(_) => false,
    }
}

// Whether these are the inodes of the entries.
fn has_inodes(tree: &Tree, wanted: &[u64]) -> bool {
    for e in 0..tree.len() {
        match wanted.get(e as usize) {
            Some(inode) if *inode == tree.entry(e).inode => (),
            _ => return false,
        }
    }
    wanted.len() == tree.len() as usize
}

#[test]
fn counts_a_record_once(rt: HostRuntime) -> Result<(), Fail> {
    let all = [file(5, b"/a"), file(5, b"//a/")];
    let tree = tree_from(rt.alloc(), all.as_slice())?;
    assert!(rt; has_inodes(&tree, [5].as_slice()));
    Ok(())
}

// Whether these records make no tree, for the doubled ones have these numbers.
fn is_doubled(alloc: Global, all: &[RawRecord<'_>], first: u32, second: u32) -> bool {
    match tree_from(alloc, all) {
        Ok(_) => false,
        Err(fault) => fault == TreeFault::Doubled { first, second },
    }
}

#[test]
fn refuses_a_doubled_path(rt: HostRuntime) {
    let all = [file(5, b"/a"), file(5, b"//a/"), directory(5, b"/a")];
    assert!(rt; is_doubled(rt.alloc(), all.as_slice(), 1, 3));
}

#[test]
fn tells_the_least_second_record(rt: HostRuntime) {
    let all = [
        file(7, b"/b"),
        file(5, b"/a"),
        file(8, b"/b"),
        file(6, b"/a"),
    ];
    assert!(rt; is_doubled(rt.alloc(), all.as_slice(), 1, 3));
}

// In the order of find(1): the names of a directory stand in any order.
#[test]
fn sorts_names_in_directories(rt: HostRuntime) -> Result<(), Fail> {
    let all = [
        directory(2, b"/"),
        directory(3, b"/b"),
        file(4, b"/b/z"),
        file(5, b"/b/y"),
        file(6, b"/a"),
    ];
    let tree = tree_from(rt.alloc(), all.as_slice())?;
    assert!(rt; has_inodes(&tree, [2, 6, 3, 5, 4].as_slice()));
    Ok(())
}

#[test]
fn finds_entries(rt: HostRuntime) -> Result<(), Fail> {
    let all = [file(7, b"/b"), file(6, b"/"), file(8, b"/a/c")];
    let tree = tree_from(rt.alloc(), all.as_slice())?;
    assert!(rt; stands(rt.alloc(), &tree, b"/b", Some(2)));
    assert!(rt; stands(rt.alloc(), &tree, b"/a", None));
    assert!(rt; has_inodes(&tree, [6, 8, 7].as_slice()));
    Ok(())
}

// A directory, a file that something lies below, and an entry whose path only begins with another's
// text.
fn small_tree(alloc: Global) -> Result<Tree, TreeFault> {
    let all = [
        directory(2, b"/"),
        file(3, b"/ab"),
        directory(4, b"/a"),
        file(5, b"/a/b"),
        file(6, b"/a/b/c"),
        file(7, b"/a/d"),
    ];
    tree_from(alloc, all.as_slice())
}

// Whether these are the extents of the entries.
fn has_extents(tree: &Tree, wanted: &[u32]) -> bool {
    for e in 0..tree.len() {
        match wanted.get(e as usize) {
            Some(end) if *end == tree.extent(e) => (),
            _ => return false,
        }
    }
    wanted.len() == tree.len() as usize
}

// Whether these are the parents of the entries.
fn has_parents(tree: &Tree, wanted: &[Option<u32>]) -> bool {
    for e in 0..tree.len() {
        match wanted.get(e as usize) {
            Some(parent) if *parent == tree.parent(e) => (),
            _ => return false,
        }
    }
    wanted.len() == tree.len() as usize
}

#[test]
fn tells_extents_and_parents(rt: HostRuntime) -> Result<(), Fail> {
    let tree = small_tree(rt.alloc())?;
    assert!(rt; has_extents(&tree, [6, 5, 4, 4, 5, 6].as_slice()));
    let parents = [None, Some(0), Some(1), Some(1), Some(1), Some(0)];
    assert!(rt; has_parents(&tree, parents.as_slice()));
    Ok(())
}

// Whether these are the groups of the entries.
fn has_groups(tree: &Tree, wanted: &[u32]) -> bool {
    for e in 0..tree.len() {
        match wanted.get(e as usize) {
            Some(group) if *group == tree.group(e) => (),
            _ => return false,
        }
    }
    wanted.len() == tree.len() as usize
}

// Whether these extents are closed.
fn has_closed(tree: &Tree, wanted: &[bool]) -> bool {
    for e in 0..tree.len() {
        match wanted.get(e as usize) {
            Some(closed) if *closed == tree.closed(e) => (),
            _ => return false,
        }
    }
    wanted.len() == tree.len() as usize
}

// Whether these are the names of an entry's inode.
fn has_names(tree: &Tree, e: u32, wanted: &[u32]) -> bool {
    e < tree.len() && tree.names_of(tree.group(e)) == wanted
}

// Two directories that share a file, which has a third name on another device by chance.
fn linked_tree(alloc: Global) -> Result<Tree, TreeFault> {
    let mut other = file(5, b"/b/z");
    other.device = 2;
    let all = [
        directory(2, b"/"),
        directory(3, b"/a"),
        file(5, b"/a/x"),
        directory(4, b"/b"),
        file(5, b"/b/y"),
        other,
    ];
    tree_from(alloc, all.as_slice())
}

#[test]
fn tells_groups(rt: HostRuntime) -> Result<(), Fail> {
    groups_are_inodes();
    let tree = linked_tree(rt.alloc())?;
    assert!(rt; has_groups(&tree, [0, 1, 2, 3, 2, 4].as_slice()));
    assert!(rt; tree.groups() == 5);
    assert!(rt; has_names(&tree, 2, [2, 4].as_slice()));
    let closed = [true, false, false, false, false, true];
    assert!(rt; has_closed(&tree, closed.as_slice()));
    Ok(())
}

// The same, with a link count.
fn counted<'a>(told: RawRecord<'a>, links: u64) -> RawRecord<'a> {
    let mut counted = told;
    counted.links = Some(links);
    counted
}

// A directory with a file, where each has a link count.
fn counted_tree(alloc: Global, links: u64) -> Result<Tree, TreeFault> {
    let all = [
        counted(directory(2, b"/"), 3),
        counted(directory(3, b"/a"), 2),
        counted(file(5, b"/a/x"), links),
        counted(file(6, b"/y"), 1),
    ];
    tree_from(alloc, all.as_slice())
}

#[test]
fn a_name_outside_leaves_an_extent_open(rt: HostRuntime) -> Result<(), Fail> {
    let tree = counted_tree(rt.alloc(), 2)?;
    assert!(rt; has_closed(&tree, [false, false, false, true].as_slice()));
    Ok(())
}

#[test]
fn the_count_of_a_directory_is_not_asked_for(rt: HostRuntime) -> Result<(), Fail> {
    let tree = counted_tree(rt.alloc(), 1)?;
    assert!(rt; has_closed(&tree, [true, true, true, true].as_slice()));
    Ok(())
}

#[test]
fn more_names_than_are_counted_do_no_harm(rt: HostRuntime) -> Result<(), Fail> {
    let all = [
        counted(directory(2, b"/"), 2),
        counted(file(5, b"/x"), 1),
        counted(file(5, b"/y"), 1),
    ];
    let tree = tree_from(rt.alloc(), all.as_slice())?;
    assert!(rt; has_closed(&tree, [true, false, false].as_slice()));
    Ok(())
}

#[test]
fn other_link_counts_contradict(rt: HostRuntime) {
    let all = [
        counted(file(5, b"/a"), 2),
        counted(file(5, b"/a"), 2),
        counted(file(5, b"/a"), 1),
    ];
    assert!(rt; is_doubled(rt.alloc(), all.as_slice(), 1, 3));
}

// Whether an entry's group has a context for its label.
fn has_context(tree: &Tree, e: u32) -> bool {
    e < tree.len() && matches!(tree.label(tree.group(e)), Label::Is(_))
}

#[test]
fn takes_the_first_label(rt: HostRuntime) -> Result<(), Fail> {
    let mut late = file(5, b"/b");
    late.label = b"?".as_slice();
    let all = [late, file(5, b"/a")];
    let tree = tree_from(rt.alloc(), all.as_slice())?;
    assert!(rt; has_context(&tree, 1));
    Ok(())
}

// The tree of names of one inode, without its label.
fn unlabelled(alloc: Global, all: &[RawRecord<'_>]) -> Result<Tree, TreeFault> {
    let tree = tree_from(alloc, all)?;
    let mut labels = Row::new(alloc);
    labels.push(Label::Absent)?;
    if tree.groups() != 1 {
        return Err(TreeFault::OutOfMemory);
    }
    Ok(tree.with_labels(alloc, &labels)?)
}

#[test]
fn takes_other_labels(rt: HostRuntime) -> Result<(), Fail> {
    let all = [file(5, b"/a"), counted(file(5, b"/b"), 2)];
    let tree = unlabelled(rt.alloc(), all.as_slice())?;
    assert!(rt; tree.len() == 2 && tree.entry(1).links == Some(2));
    assert!(rt; has_inodes(&tree, [5, 5].as_slice()));
    assert!(rt; !has_context(&tree, 0) && !has_context(&tree, 1));
    Ok(())
}

fn row_of(alloc: Global, paths: &[&[u8]]) -> Result<Row<NormPath>, TreeFault> {
    let mut row = Row::new(alloc);
    for path in paths {
        let Ok(path) = NormPath::read(alloc, path) else {
            return Err(TreeFault::OutOfMemory);
        };
        row.push(path)?;
    }
    Ok(row)
}

// The choice of operands, with what lies below them, but for what is at or below excluded paths.
fn choice_of(alloc: Global, operands: &[&[u8]], excluded: &[&[u8]]) -> Result<Choice, TreeFault> {
    let operands = row_of(alloc, operands)?;
    let excluded = row_of(alloc, excluded)?;
    Ok(Choice {
        operands,
        excluded,
        recurse: true,
        one_device: false,
    })
}

// Whether a choice means just these entries, and so many of its operands are absent.
fn means(
    alloc: Global,
    tree: &Tree,
    choice: &Choice,
    wanted: &[bool],
    absent: usize,
) -> Result<bool, TreeFault> {
    if choice.operands.len() > u32::MAX as usize {
        return Err(TreeFault::OutOfMemory);
    }
    let selected = tree.select(alloc, choice)?;
    for e in 0..tree.len() {
        match wanted.get(e as usize) {
            Some(live) if *live == selected.is_live(e) => (),
            _ => return Ok(false),
        }
    }
    Ok(wanted.len() == tree.len() as usize && selected.absent().len() == absent)
}

// The same of the tree of these records, where no operand is absent.
fn means_in(
    alloc: Global,
    all: &[RawRecord<'_>],
    choice: &Choice,
    wanted: &[bool],
) -> Result<bool, TreeFault> {
    let tree = tree_from(alloc, all)?;
    means(alloc, &tree, choice, wanted, 0)
}

// A file system that is mounted in a directory.
#[test]
fn stays_on_one_device(rt: HostRuntime) -> Result<(), Fail> {
    let mut mount = directory(2, b"/a/m");
    mount.device = 2;
    let all = [
        directory(3, b"/a"),
        mount,
        file(5, b"/a/m/x"),
        file(6, b"/a/y"),
    ];
    let operands = [b"/a".as_slice()];
    let mut choice = choice_of(rt.alloc(), operands.as_slice(), [].as_slice())?;
    choice.one_device = true;
    let wanted = [true, false, false, true];
    assert!(rt; means_in(rt.alloc(), all.as_slice(), &choice, wanted.as_slice())?);
    Ok(())
}

#[test]
fn leaves_out_what_no_entry_has(rt: HostRuntime) -> Result<(), Fail> {
    let all = [
        file(2, b"/a"),
        file(3, b"/a/q/x"),
        file(4, b"/a/q/y/z"),
        file(5, b"/a/qq"),
    ];
    let (operands, excluded) = ([b"/a".as_slice()], [b"/a/q".as_slice()]);
    let choice = choice_of(rt.alloc(), operands.as_slice(), excluded.as_slice())?;
    let wanted = [true, false, false, true];
    assert!(rt; means_in(rt.alloc(), all.as_slice(), &choice, wanted.as_slice())?);
    Ok(())
}

#[test]
fn tells_absent_operands(rt: HostRuntime) -> Result<(), Fail> {
    absent_have_no_entry();
    let tree = small_tree(rt.alloc())?;
    let operands = [b"/none".as_slice(), b"/a/b".as_slice()];
    let mut choice = choice_of(rt.alloc(), operands.as_slice(), [].as_slice())?;
    choice.recurse = false;
    let wanted = [false, false, true, false, false, false];
    assert!(rt; means(rt.alloc(), &tree, &choice, wanted.as_slice(), 1)?);
    Ok(())
}

// Whether an entry is whole where a choice is made from a tree.
fn is_whole(alloc: Global, tree: &Tree, choice: &Choice, e: u32) -> Result<bool, TreeFault> {
    if e >= tree.len() || choice.operands.len() > u32::MAX as usize {
        return Err(TreeFault::OutOfMemory);
    }
    let selected = tree.select(alloc, choice)?;
    Ok(selected.is_whole(tree, e))
}

// Whether the directory /b is whole where all of / is meant but for one file.
fn is_whole_without(alloc: Global, path: &[u8]) -> Result<bool, TreeFault> {
    let all = [
        directory(2, b"/"),
        file(3, b"/a"),
        directory(4, b"/b"),
        file(5, b"/b/x"),
    ];
    let (operands, excluded) = ([b"/".as_slice()], [path]);
    let choice = choice_of(alloc, operands.as_slice(), excluded.as_slice())?;
    let tree = tree_from(alloc, all.as_slice())?;
    is_whole(alloc, &tree, &choice, 2)
}

#[test]
fn tells_whole_directories(rt: HostRuntime) -> Result<(), Fail> {
    assert!(rt; is_whole_without(rt.alloc(), b"/a")?);
    assert!(rt; !is_whole_without(rt.alloc(), b"/b/x")?);
    Ok(())
}

#[test]
fn makes_a_shape(rt: HostRuntime) -> Result<(), Fail> {
    let tree = small_tree(rt.alloc())?;
    let shape = tree.shape(rt.alloc())?;
    assert!(rt; shape.parents.as_slice() == [0, 1].as_slice());
    assert!(rt; shape.homes.as_slice() == [0, 1, 2, 2, 2, 1].as_slice());
    assert!(rt; shape.groups == 6);
    Ok(())
}

// Whether these are the entries that a job holds.
fn holds(tree: &Tree, job: u32, wanted: &[u32]) -> bool {
    if job > tree.directories() {
        return false;
    }
    let mut left = wanted;
    for e in tree.entries_of_job(job) {
        match left {
            [first, rest @ ..] if *first == e => left = rest,
            _ => return false,
        }
    }
    left.is_empty()
}

#[test]
fn lists_the_entries_of_jobs(rt: HostRuntime) -> Result<(), Fail> {
    jobs_are_directories();
    let tree = small_tree(rt.alloc())?;
    assert!(rt; holds(&tree, 1, [1, 5].as_slice()));
    assert!(rt; holds(&tree, 2, [2, 3, 4].as_slice()));
    Ok(())
}

// The job of the entry with an index, if it is a directory.
fn job_told(tree: &Tree, e: u32) -> Option<u32> {
    if e >= tree.len() || !tree.is_directory(e) {
        return None;
    }
    Some(tree.job_of(e))
}

#[test]
fn tells_jobs_and_directories(rt: HostRuntime) -> Result<(), Fail> {
    let tree = small_tree(rt.alloc())?;
    assert!(rt; tree.directories() == 2 && tree.job_directory(2) == Some(1));
    assert!(rt; job_told(&tree, 1) == Some(2));
    Ok(())
}
