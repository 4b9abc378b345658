//! Tests of the tools.
#![tactic(auto)]

#[cfg(test)]
mod home_contexts_tests;
#[cfg(test)]
mod label_audit_tests;
#[cfg(test)]
mod path_lookups_tests;
#[cfg(test)]
mod policy_files_tests;
#[cfg(test)]
mod policy_rehearsal_tests;
#[cfg(test)]
mod sample_tree_tests;
#[cfg(test)]
mod tree_relabelling_tests;
