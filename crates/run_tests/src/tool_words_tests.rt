use file_paths::NormPath;
use label_base::{EntryKind, Fault, Name, OutOfMemory, Row};
use std::alloc::Global;
use tool_words::{
    Form, Item, Letter, Others, Takes, ToolLetters, Usage, UsageWhy, Valued, has_flag, has_operand,
    has_value, kind_of, name_of, names_of, number_of, operands, paths_given, read_items,
    read_items_within, refused_where_wrong, value_of, words_follow_grammar,
};

const LETTERS: &[Letter] = &[
    Letter {
        letter: b'n',
        takes: Takes::Flag,
    },
    Letter {
        letter: b'v',
        takes: Takes::Flag,
    },
    Letter {
        letter: b'T',
        takes: Takes::Value(Form::Number { most: 64 }),
    },
    Letter {
        letter: b'e',
        takes: Takes::Value(Form::Path),
    },
    Letter {
        letter: b'o',
        takes: Takes::Value(Form::Name),
    },
    Letter {
        letter: b'm',
        takes: Takes::Value(Form::Kind),
    },
];

// The words of a tool whose first operand is the name of a file, and whose others are paths.
fn with_file() -> ToolLetters<'static> {
    ToolLetters {
        letters: LETTERS,
        first: Some(Valued {
            letter: b'S',
            form: Form::Name,
        }),
        others: Others::Paths,
    }
}

// Those of a tool with paths alone.
fn with_paths() -> ToolLetters<'static> {
    ToolLetters {
        letters: LETTERS,
        first: None,
        others: Others::Paths,
    }
}

// Those of a tool with one operand, a number.
fn with_number() -> ToolLetters<'static> {
    ToolLetters {
        letters: &[],
        first: Some(Valued {
            letter: b'N',
            form: Form::Number { most: 1_000_000 },
        }),
        others: Others::Refused(UsageWhy::BadNumber),
    }
}

fn words_of(alloc: Global, words: &[&str]) -> Result<Vec<String>, OutOfMemory> {
    let mut made = Vec::new(alloc);
    for word in words {
        made.push(String::from_str(alloc, word)?)?;
    }
    Ok(made)
}

fn read<'a>(
    alloc: Global,
    tool: &ToolLetters<'_>,
    words: &'a [String],
) -> Result<Row<Item<'a>>, Fault<Usage>> {
    if words.len() >= 1 << 30 {
        return Err(Fault::OutOfMemory);
    }
    refused_where_wrong(words);
    words_follow_grammar(words);
    read_items(alloc, tool, words, 1)
}

// The index and the reason of the first wrong word.
fn refused(alloc: Global, tool: &ToolLetters<'_>, words: &[&str]) -> Option<(u32, UsageWhy)> {
    let words = words_of(alloc, words).ok()?;
    match read(alloc, tool, words.as_slice()) {
        Err(Fault::Why(wrong)) => Some((wrong.index, wrong.why)),
        _ => None,
    }
}

#[test]
fn wrong_letters(rt: HostRuntime) {
    for (words, index, why) in [
        (
            ["-n", "-q", "fc", "/"].as_slice(),
            2,
            UsageWhy::UnknownOption,
        ),
        (&["-nf", "/"], 1, UsageWhy::UnknownOption),
        (&["--dry", "fc", "/"], 1, UsageWhy::UnknownOption),
        (&["-n\u{e9}", "/"], 1, UsageWhy::UnknownOption),
        (&["-n", "-T"], 2, UsageWhy::MissingValue),
        (&["fc", "-nm"], 2, UsageWhy::MissingValue),
    ] {
        assert_eq!(rt;
            refused(rt.alloc(), &with_file(), words),
            Some((index, why))
        );
    }
}

#[test]
fn wrong_values(rt: HostRuntime) {
    for (words, index, why) in [
        (
            ["-n", "-T", "65", "fc", "/"].as_slice(),
            3,
            UsageWhy::BadNumber,
        ),
        (&["-nT65", "fc", "/"], 1, UsageWhy::BadNumber),
        (&["-T", "2x", "-T", "2", "fc", "/"], 2, UsageWhy::BadNumber),
        (&["-n", "-T", "", "fc", "/"], 3, UsageWhy::BadNumber),
        (&["-e", "srv", "-T", "65", "/"], 2, UsageWhy::BadPath),
        (&["-o", "", "fc", "/"], 2, UsageWhy::BadPath),
        (&["", "/"], 1, UsageWhy::BadPath),
        (&["-n", "fc", "/a", "b", "/.."], 4, UsageWhy::BadPath),
        (&["-n", "fc", "--", "-v"], 4, UsageWhy::BadPath),
        (&["fc", "--", "--", "-q"], 3, UsageWhy::BadPath),
        (&["fc", "-"], 2, UsageWhy::BadPath),
        (&["-m", "fifo_file", "fc", "/"], 2, UsageWhy::BadKind),
    ] {
        assert_eq!(rt;
            refused(rt.alloc(), &with_file(), words),
            Some((index, why))
        );
    }
}

#[test]
fn wrong_operands(rt: HostRuntime) {
    for (words, index, why) in [
        (["1000001"].as_slice(), 1, UsageWhy::BadNumber),
        (&["--", "-7"], 2, UsageWhy::BadNumber),
        (&["7", "8"], 2, UsageWhy::BadNumber),
        (&["x", "-n"], 1, UsageWhy::BadNumber),
        (&["-n", "7"], 1, UsageWhy::UnknownOption),
    ] {
        assert_eq!(rt;
            refused(rt.alloc(), &with_number(), words),
            Some((index, why))
        );
    }
}

// The flags n and v, the value of T, the number of operands, as digits.
fn digits(alloc: Global, words: &[&str]) -> Option<(bool, bool, Option<u32>)> {
    let words = words_of(alloc, words).ok()?;
    let items = read(alloc, &with_paths(), words.as_slice()).ok()?;
    let items = items.as_slice();
    Some((
        has_flag(b'n', items),
        has_flag(b'v', items),
        number_of(b'T', 64, items),
    ))
}

#[test]
fn flags_and_numbers(rt: HostRuntime) {
    for (words, told) in [
        (["/"].as_slice(), (false, false, None)),
        (&["-n", "/"], (true, false, None)),
        (&["/", "-vT0"], (false, true, Some(0))),
        (&["-nT", "064"], (true, false, Some(64))),
        (&["-T", "2", "-T4", "--", "/"], (false, false, Some(4))),
    ] {
        assert_eq!(rt; digits(rt.alloc(), words), Some(told));
    }
}

// The type of files, whether there is a value of o, and whether there is an operand.
fn presence(alloc: Global, words: &[&str]) -> Option<(Option<EntryKind>, bool, bool)> {
    let words = words_of(alloc, words).ok()?;
    let items = read(alloc, &with_paths(), words.as_slice()).ok()?;
    let items = items.as_slice();
    Some((
        kind_of(b'm', items),
        has_value(b'o', items),
        has_operand(items),
    ))
}

#[test]
fn types_of_files(rt: HostRuntime) {
    for (name, kind) in [
        ("file", EntryKind::Regular),
        ("dir", EntryKind::Directory),
        ("lnk_file", EntryKind::Link),
        ("pipe", EntryKind::Pipe),
        ("sock_file", EntryKind::Socket),
        ("blk_file", EntryKind::Block),
        ("chr_file", EntryKind::Char),
    ] {
        assert_eq!(rt;
            presence(rt.alloc(), &["-m", "dir", "-nm", name, "-oa", "/"]),
            Some((Some(kind), true, true))
        );
    }
    assert_eq!(rt;
        presence(rt.alloc(), &["-m", "dir", "--"]),
        Some((Some(EntryKind::Directory), false, false))
    );
}

// Whether the names are those texts.
fn are_names(names: &Row<Name>, texts: &[&str]) -> bool {
    if names.len() != texts.len() {
        return false;
    }
    for i in 0..texts.len() {
        if i < names.len() && names.get(i).as_str() != texts[i] {
            return false;
        }
    }
    true
}

fn has_names(alloc: Global, words: &[&str], letter: u8, texts: &[&str]) -> Option<bool> {
    let words = words_of(alloc, words).ok()?;
    let items = read(alloc, &with_file(), words.as_slice()).ok()?;
    let names = names_of(alloc, letter, items.as_slice()).ok()?;
    Some(are_names(&names, texts))
}

#[test]
fn names_of_files(rt: HostRuntime) {
    for (letter, texts) in [
        (b'S', ["fc"].as_slice()),
        (b'o', &["1", "--", "-b"]),
        (b'K', &[]),
    ] {
        let words = ["-o1", "fc", "-o", "--", "/a", "-no", "-b"];
        assert_eq!(rt;
            has_names(rt.alloc(), words.as_slice(), letter, texts),
            Some(true)
        );
    }
}

fn is_named(alloc: Global, words: &[&str], letter: u8, text: &str) -> Option<bool> {
    let words = words_of(alloc, words).ok()?;
    let items = read(alloc, &with_file(), words.as_slice()).ok()?;
    let name = name_of(alloc, letter, items.as_slice()).ok()??;
    Some(name.as_str() == text && value_of(letter, items.as_slice()) == Some(text))
}

#[test]
fn last_name_counts(rt: HostRuntime) {
    for (letter, told) in [(b'S', Some(true)), (b'o', Some(false)), (b'K', None)] {
        let words = ["-o1", "-o", "2", "--", "--", "/x"];
        assert_eq!(rt; is_named(rt.alloc(), words.as_slice(), letter, "--"), told);
    }
}

// The same, where `-o` may have two values.
fn refused_within(alloc: Global, words: &[&str]) -> Option<(u32, UsageWhy)> {
    let words = words_of(alloc, words).ok()?;
    if words.len() >= 1 << 30 {
        return None;
    }
    match read_items_within(alloc, &with_paths(), words.as_slice(), 1, b'o', 2) {
        Err(Fault::Why(wrong)) => Some((wrong.index, wrong.why)),
        _ => None,
    }
}

#[test]
fn a_value_too_many(rt: HostRuntime) {
    for (words, told) in [
        (["-o", "a", "-ob", "/"].as_slice(), None),
        (
            &["-o", "a", "-ob", "-o", "", "-q"],
            Some((5, UsageWhy::BadNumber)),
        ),
        (
            &["-oa", "-q", "-ob", "-oc"],
            Some((2, UsageWhy::UnknownOption)),
        ),
    ] {
        assert_eq!(rt; refused_within(rt.alloc(), words), told);
    }
}

// Whether the paths are those that the texts spell.
fn are_paths(paths: &Row<NormPath>, texts: &[&str]) -> bool {
    if paths.len() != texts.len() {
        return false;
    }
    for i in 0..texts.len() {
        if i < paths.len() && paths.get(i).as_text() != texts[i].as_bytes() {
            return false;
        }
    }
    true
}

const PATHS: &[&str] = &[
    "-e", "/b//c", "fc", "/b", "-n", "-e/b/d", "//", "--", "/-x/",
];

fn has_operands(alloc: Global, texts: &[&str]) -> Option<bool> {
    let words = words_of(alloc, PATHS).ok()?;
    let items = read(alloc, &with_file(), words.as_slice()).ok()?;
    let paths = operands(alloc, items.as_slice()).ok()?;
    Some(are_paths(&paths, texts))
}

fn has_given(alloc: Global, texts: &[&str]) -> Option<bool> {
    let words = words_of(alloc, PATHS).ok()?;
    let items = read(alloc, &with_file(), words.as_slice()).ok()?;
    let paths = paths_given(alloc, b'e', items.as_slice()).ok()?;
    Some(are_paths(&paths, texts))
}

#[test]
fn paths_of_words(rt: HostRuntime) {
    assert_eq!(rt; has_operands(rt.alloc(), &["/b", "/", "/-x"]), Some(true));
    assert_eq!(rt; has_given(rt.alloc(), &["/b/c", "/b/d"]), Some(true));
}
