ghost use Rattle.std.specs.Prelude.{◌≡◌, map};
ghost use Rattle.path_subs.specs.SubLines.{subs_of};
ghost use Rattle.path_subs.specs.Subs.{substituted};
ghost use Rattle.path_reasons.specs.Constants.{ConstantsAreStated};
ghost use Rattle.path_reasons.specs.Laws.{LineDecides, OthersFollow, PathIsSubstituted};
ghost use Rattle.path_reasons.specs.Laws.{without_numbers};
ghost use Rattle.path_reasons.specs.SubLines.{sub_lines_of};

/// A law: the constants are those of `specs/Constants.antt`. It does nothing.
pub fn constants_are_stated()
    ensures { ConstantsAreStated }
{}

/// A law: the line that is reported as deciding is the last match for the substituted path, and the
/// others are exactly the other lines that match, in order. It does nothing.
pub fn decided_is_last_match()
    ensures decides { LineDecides }
    ensures others { OthersFollow }
    ensures path { PathIsSubstituted }
{}

/// A law on all bytes: the lines of a substitution file with their numbers are those that path
/// substitution goes by. It does nothing.
pub fn numbered_are_substitutions(_bytes: &[u8])
    ensures { without_numbers (sub_lines_of _bytes.now) ≡ subs_of _bytes.now }
{}
