//! Tests of the walk by several workers.
#![tactic(auto)]

#[cfg(test)]
mod relabel_workers_tests;
#[cfg(test)]
mod test_worlds;
#[cfg(test)]
mod threaded_relabelling_tests;
