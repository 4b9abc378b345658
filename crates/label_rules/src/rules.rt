use context_syntax::TypeNames;
use path_subs::Subs;
use spec_match::RuleSet;

/// What decides the labels of a tree.
pub struct Rules {
    /// The specifications, in the order in which the last match decides.
    pub rules: RuleSet,
    /// The substitutions that a path goes through before it is looked up.
    pub subs: Subs,
    /// The customizable types.
    pub types: TypeNames,
}

// By hand: one call for an owner, where a derived drop is a step for each field.
impl Drop for Rules {
    fn drop(self) {
        let Rules {
            rules: _,
            subs: _,
            types: _,
        } = self;
    }
}
