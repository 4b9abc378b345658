use file_roles::{FileList, FileRole, Part};
use label_base::{Name, OutOfMemory};
use std::alloc::Global;
use std::test::Fail;

fn list(alloc: Global) -> Result<FileList, OutOfMemory> {
    let mut files = FileList::new(alloc);
    files.add(FileRole::alone(Part::Base), Name::copy_of(alloc, "fc")?)?;
    files.add(
        FileRole::alone(Part::Stored),
        Name::copy_of(alloc, "digests")?,
    )?;
    Ok(files)
}

#[test]
fn a_file_is_named_by_its_role(rt: HostRuntime) -> Result<(), Fail> {
    let files = list(rt.alloc())?;
    assert_eq!(rt; files.name_of(FileRole::alone(Part::Stored)), "digests");
    assert_eq!(rt; files.name_of(FileRole::alone(Part::Subs)), "");
    Ok(())
}

#[test]
fn parts_have_limits(rt: HostRuntime) {
    assert_eq!(rt; FileRole::alone(Part::SubsDist).most_bytes(), 1_048_576);
    assert!(rt; !FileRole::alone(Part::Stored).may_be_absent());
}

#[test]
fn what_homes_are_made_of_may_not_be_absent(rt: HostRuntime) {
    assert_eq!(rt; FileRole::alone(Part::Users).most_bytes(), 1_048_576);
    assert!(rt; !FileRole::alone(Part::Template).may_be_absent());
}
