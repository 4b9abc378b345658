//! Tests of the tree of entries.
#![tactic(auto)]

#[cfg(test)]
mod tree_model_tests;
