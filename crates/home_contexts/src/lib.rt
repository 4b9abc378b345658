//! The contexts of users' homes: a file of specifications, made from a template and a list of
//! users, and the tool genhomedircon, which makes it.
#![tactic(auto)]

mod asked;
mod escape;
mod expansion;
mod firsts;
mod found;
mod giving;
mod homes_fault;
mod laws;
mod letters;
mod limits;
mod line;
mod long;
mod made;
mod template;
mod tool;
mod user;
mod user_line;
mod users;
mod users_fault;
mod value;
mod word;

pub use asked::{HomesWords, read_homes};
pub use escape::escape_path;
pub use expansion::expand;
pub use homes_fault::{HomesFault, HomesWhy};
pub use laws::constants_are_stated;
pub use limits::{MOST_SPECS, MOST_TEXT_BYTES};
pub use user::User;
pub use users::{read_users, users_follow_grammar};
pub use users_fault::{NoUser, UsersFault};

/// The name of the tool.
pub const GENHOMEDIRCON: &str = "genhomedircon";
