//! Tests of what all tools share: words, faults, input and endings.
#![tactic(auto)]

#[cfg(test)]
mod run_endings_tests;
#[cfg(test)]
mod run_faults_tests;
#[cfg(test)]
mod run_input_tests;
#[cfg(test)]
mod tool_words_tests;
