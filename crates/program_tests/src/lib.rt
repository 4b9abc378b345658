//! Tests of whole runs of the program.
#![tactic(auto)]

#[cfg(test)]
mod audit_tests;
#[cfg(test)]
mod digest_tests;
#[cfg(test)]
mod failing_tests;
#[cfg(test)]
mod realistic_tests;
#[cfg(test)]
mod whole_tests;
#[cfg(test)]
mod worked_tests;
