use file_roles::{FileList, FileRole, Part};
use label_base::{Name, OutOfMemory};
use run_faults::{Cause, LimitKind, fault_line, status};
use std::alloc::Global;
use std::test::Fail;

#[test]
fn soft_errors_end_with_one(rt: HostRuntime) {
    let cause = Cause::WalkErrors { count: 3 };
    assert_eq!(rt; status(&cause, true), 1);
    assert_eq!(rt; status(&cause, false), 255);
}

fn files(alloc: Global) -> Result<FileList, OutOfMemory> {
    let mut files = FileList::new(alloc);
    files.add(
        FileRole::alone(Part::Subs),
        Name::copy_of(alloc, "fc.subs")?,
    )?;
    Ok(files)
}

fn users_file(alloc: Global) -> Result<FileList, OutOfMemory> {
    let mut files = FileList::new(alloc);
    files.add(FileRole::alone(Part::Users), Name::copy_of(alloc, "users")?)?;
    Ok(files)
}

#[test]
fn a_refused_user_has_a_place(rt: HostRuntime) -> Result<(), Fail> {
    let cause = Cause::UsersRefused { line: 3 };
    let line = fault_line(rt.alloc(), &users_file(rt.alloc())?, &cause)?;
    assert!(rt; line.as_slice() == b"relabel: users: line 3: not a user\n".as_slice());
    Ok(())
}

#[test]
fn a_limit_names_its_file(rt: HostRuntime) -> Result<(), Fail> {
    let which = LimitKind::File(FileRole::alone(Part::Subs));
    let line = fault_line(rt.alloc(), &files(rt.alloc())?, &Cause::Limit { which })?;
    assert!(rt; line.as_slice() == b"relabel: limit: bytes of fc.subs\n".as_slice());
    Ok(())
}
