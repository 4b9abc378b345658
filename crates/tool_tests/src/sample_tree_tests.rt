ghost use Rattle.std.specs.Prelude.{◌<◌, ◌^◌, IfOk, length};

use label_base::OutOfMemory;
use sample_tree::{Summary, read_sample, sample_records};
use std::alloc::Global;
use std::test::Fail;

// Whether a sample with so many files has these records.
fn has(alloc: Global, count: u32, wanted: &str) -> Result<bool, OutOfMemory> {
    Ok(sample_records(alloc, count)?.as_slice() == wanted.as_bytes())
}

#[test]
fn a_root_alone(rt: HostRuntime) -> Result<(), Fail> {
    assert!(rt; has(rt.alloc(), 0, "d 1 1 system_u:object_r:root_t:s0 /\0")?);
    Ok(())
}

#[test]
fn five_files(rt: HostRuntime) -> Result<(), Fail> {
    let wanted = "d 1 1 system_u:object_r:root_t:s0 /\0d 1 2 system_u:object_r:dir_t:s0 /d0\0\
            d 1 3 system_u:object_r:dir_t:s0 /d1\0d 1 4 system_u:object_r:dir_t:s0 /d2\0\
            d 1 5 system_u:object_r:dir_t:s0 /d3\0d 1 6 system_u:object_r:dir_t:s0 /d4\0\
            f 1 1000 system_u:object_r:a_t:s0 /d0/f0\0f 1 1000 system_u:object_r:a_t:s0 /d1/f1\0\
            f 1 1001 system_u:object_r:b_t:s0 /d2/f2\0f 1 1001 system_u:object_r:b_t:s0 /d3/f3\0\
            f 1 1002 ? /d4/f4\0";
    assert!(rt; has(rt.alloc(), 5, wanted)?);
    Ok(())
}

#[test]
fn a_summary_has_a_line_for_each_number(rt: HostRuntime) -> Result<(), Fail> {
    let summary = Summary {
        entries: 116,
        relabelled: 53,
        conflicts: 0,
        errors: 1,
        skipped_again: 10,
        relabelled_again: 2,
    };
    let wanted =
        "entries 116\nrelabelled 53\nconflicts 0\nerrors 1\nskipped again 10\nrelabelled again 2\n";
    assert!(rt; summary.text(rt.alloc())?.as_slice() == wanted.as_bytes());
    Ok(())
}

fn words_of(alloc: Global, words: &[&str]) -> Result<Vec<String>, OutOfMemory>
    ensures { IfOk result (λ made. length made.items < 2 ^ 30) }
{
    let mut made = Vec::new(alloc);
    'words: for word in words {
        made.push(String::from_str(alloc, word)?)?;
    }
    if made.len() >= 1 << 30 {
        return Err(OutOfMemory);
    }
    Ok(made)
}

// How many files are asked for, where nothing is wrong.
fn asked(alloc: Global, words: &[&str]) -> Result<Option<u32>, OutOfMemory> {
    let words = words_of(alloc, words)?;
    Ok(
        read_sample(alloc, words.as_slice(), 1)
            .ok()
            .map(|asked| asked.count),
    )
}

#[test]
fn a_sample_has_a_number_of_files(rt: HostRuntime) -> Result<(), Fail> {
    assert_eq!(rt; asked(rt.alloc(), ["1000"].as_slice())?, Some(1000));
    assert_eq!(rt; asked(rt.alloc(), ["1000001"].as_slice())?, None);
    Ok(())
}
