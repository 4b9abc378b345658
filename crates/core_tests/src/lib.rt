//! Tests of labels, digests and the walk by one worker.
#![tactic(auto)]

#[cfg(test)]
mod dir_digest_tests;
#[cfg(test)]
mod label_rules_tests;
#[cfg(test)]
mod relabel_core_digest_tests;
#[cfg(test)]
mod relabel_core_dump_tests;
#[cfg(test)]
mod relabel_core_tests;
#[cfg(test)]
mod relabel_runs_tests;
#[cfg(test)]
mod test_walks;
