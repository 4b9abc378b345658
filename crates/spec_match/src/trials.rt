use pattern_match::States;

/// The states in which specifications are tried by themselves, and how many were.
#[derive(Drop)]
pub struct Trials {
    pub states: States,
    // As far as a number of 64 bits goes.
    pub tried: u64,
}
