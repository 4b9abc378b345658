//! Tests of relabel-policy: of whole runs, and of the libraries that only it uses.
#![tactic(auto)]

#[cfg(test)]
mod explain_tests;
#[cfg(test)]
mod policy_lists_tests;
