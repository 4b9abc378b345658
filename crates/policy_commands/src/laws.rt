ghost use Rattle.policy_commands.specs.Constants.{ConstantsAreStated};

/// A law: the constants are those of `specs/Constants.antt`. It does nothing.
pub fn constants_are_stated()
    ensures { ConstantsAreStated }
{}
