//! The words of a tool, by the table of its letters and operands: what they say, and what is wrong
//! with them. No tool is known here.
#![tactic(auto)]

mod checks;
mod cutting;
mod item;
mod laws;
mod letters;
mod lists;
mod reading;
mod said;
mod usage;
mod values;

pub use item::Item;
pub use laws::{constants_are_stated, refused_where_wrong, words_follow_grammar};
pub use letters::{Form, Letter, Others, Takes, ToolLetters, Valued};
pub use lists::{names_of, operands, paths_given};
pub use reading::{read_items, read_items_within};
pub use said::{has_flag, has_operand, has_value, kind_of, name_of, number_of, value_of};
pub use usage::{Usage, UsageWhy};
