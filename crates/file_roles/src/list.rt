ghost use Rattle.std.specs.Prelude.{◌≡◌, ◌++◌, ◌∷◌, [], OnOk};
ghost use Rattle.file_roles.specs.Roles.{role_name, file_named};

use crate::role::FileRole;
use label_base::{Name, OutOfMemory, Row};
use std::alloc::Global;
use std::marker::Model;

/// A file that a run reads.
#[derive(Debug, Drop)]
pub struct NamedFile {
    pub role: FileRole,
    pub name: Name,
}

/// The files that a run reads, in the order in which it does.
#[derive(Debug)]
pub struct FileList {
    files: Row<NamedFile>,
}

impl Model for FileList {
    ghost use Rattle.std.specs.Prelude.{List};
    ghost use Rattle.file_roles.specs.declared.list.NamedFile.{NamedFile};

    ghost Value = { List NamedFile };

    ghost view = { λ l. l.files };
}

// By hand: one call for an owner, where a derived drop is a step for each field.
impl Drop for FileList {
    fn drop(self) {
        let FileList { files: _ } = self;
    }
}

// The name of the first of some files that has this role.
fn first_name<'a>(files: &'a [NamedFile], role: FileRole) -> &'a str
    ensures { result.now ≡ role_name files.now role }
{
    'files: for file in files {
        if file.role.is(role) {
            return file.name.as_str();
        }
    }
    ""
}

impl FileList {
    /// No file.
    pub fn new(alloc: Global) -> FileList
        ensures { result ≡ [] }
    {
        FileList {
            files: Row::new(alloc),
        }
    }

    /// Adds a file behind the others.
    pub fn add(&mut self, role: FileRole, name: Name) -> Result<(), OutOfMemory>
        ensures { OnOk result (self.new ≡ self.old ++ file_named role name ∷ []) }
    {
        self.files.push(NamedFile { role, name })
    }

    /// The name of the first file with a role; no bytes where there is none.
    pub fn name_of(&self, role: FileRole) -> &str
        ensures { result.now ≡ role_name self.now role }
    {
        first_name(self.files.as_slice(), role)
    }
}
