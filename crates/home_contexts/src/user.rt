use file_paths::NormPath;
use label_base::Bytes;
use std::marker::Model;

/// A home has at least so many names, so that it stands below a directory that isn't `/`.
pub const LEAST_HOME_NAMES: usize = 2;

/// A user, for whose home contexts are made.
#[derive(Debug)]
pub struct User {
    /// The name in SELinux, written as a context's type is.
    pub name: Bytes,
    /// The role, or what stands for it in names of types; written as a context's type is.
    pub role: Bytes,
    /// The home, of at least two names, none of which holds a blank or a line feed.
    pub home: NormPath,
}

// By hand: one call for an owner, where a derived drop is a step for each field.
impl Drop for User {
    fn drop(self) {
        let User {
            name: _,
            role: _,
            home: _,
        } = self;
    }
}

impl Model for User {
    ghost use Rattle.home_contexts.specs.User.{IsUser, UserValue};

    ghost Value = { UserValue };

    ghost view = { λ u. record { name = u.name; role = u.role; home = u.home } };

    ghost invariant = { λ u. IsUser (record { name = u.name; role = u.role; home = u.home }) };
}
