//! Tests of patterns and of the specification that decides.
#![tactic(auto)]

#[cfg(test)]
mod pattern_match_matcher_tests;
#[cfg(test)]
mod pattern_match_one_text_tests;
#[cfg(test)]
mod pattern_match_part_tests;
#[cfg(test)]
mod pattern_match_spelling_tests;
#[cfg(test)]
mod spec_match_carried_tests;
#[cfg(test)]
mod spec_match_tests;
#[cfg(test)]
mod spec_match_tried_tests;
