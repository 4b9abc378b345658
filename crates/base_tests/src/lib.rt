//! Tests of the lowest crates: texts, paths, roles of files, and input and output.
#![tactic(auto)]

#[cfg(test)]
mod file_paths_path_key_tests;
#[cfg(test)]
mod file_paths_path_ref_tests;
#[cfg(test)]
mod file_paths_path_tests;
#[cfg(test)]
mod file_roles_tests;
#[cfg(test)]
mod input_output_file_store_tests;
#[cfg(test)]
mod input_output_mem_sink_tests;
#[cfg(test)]
mod input_output_mem_source_tests;
#[cfg(test)]
mod input_output_mem_store_tests;
#[cfg(test)]
mod input_output_sink_tests;
#[cfg(test)]
mod input_output_source_tests;
#[cfg(test)]
mod label_base_bytes_tests;
#[cfg(test)]
mod label_base_cut_tests;
#[cfg(test)]
mod label_base_escape_tests;
#[cfg(test)]
mod label_base_fault_tests;
#[cfg(test)]
mod label_base_greatest_tests;
#[cfg(test)]
mod label_base_kind_tests;
#[cfg(test)]
mod label_base_name_tests;
#[cfg(test)]
mod label_base_number_tests;
#[cfg(test)]
mod label_base_pieced_text_tests;
#[cfg(test)]
mod label_base_row_tests;
#[cfg(test)]
mod label_base_steps_tests;
