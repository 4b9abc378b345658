use file_paths::NormPath;
use std::marker::Model;

/// One line of a substitution file. Its source isn't `/`.
#[derive(Debug, Drop)]
pub struct Sub {
    /// Paths at or below this one are changed.
    pub source: NormPath,
    /// What stands in its place.
    pub target: NormPath,
}

impl Model for Sub {
    ghost use Rattle.std.specs.Prelude.{◌≡◌, false};
    ghost use Rattle.file_paths.specs.Path.{is_root_path};
    ghost use Rattle.path_subs.specs.Subs.{SubValue};

    ghost Value = { SubValue };

    ghost view = { λ s. record { source = s.source; target = s.target } };

    ghost invariant = { λ s. is_root_path s.source ≡ false };
}
