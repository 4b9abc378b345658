//! Tests of the readers and writers of single formats.
#![tactic(auto)]

#[cfg(test)]
mod context_syntax_tests;
#[cfg(test)]
mod find_records_tests;
#[cfg(test)]
mod path_subs_tests;
#[cfg(test)]
mod pattern_syntax_tests;
#[cfg(test)]
mod report_text_tests;
#[cfg(test)]
mod setfattr_dump_tests;
#[cfg(test)]
mod spec_order_tests;
#[cfg(test)]
mod spec_reader_tests;
#[cfg(test)]
mod stem_index_tests;
