ghost use Rattle.std.specs.Prelude.{◌≡◌, ◌↔◌, ◌<◌, ◌^◌, length};
ghost use Rattle.label_base.specs.Answers.{Answers, fault_cause};
ghost use Rattle.home_contexts.specs.UserGrammar.{UsersMean};
ghost use Rattle.home_contexts.specs.UserLines.{users_of};

use crate::user::User;
use crate::user_line::UserReader;
use crate::users_fault::UsersFault;
use label_base::{Row, read_lines};
use std::alloc::Global;

/// Reads the users of a file, in the order of its lines.
///
/// A line's first three fields are the name, the role and the home; what follows is passed over.
/// The first line that isn't a user is refused. Comments and blank lines are skipped.
pub fn read_users(alloc: Global, bytes: &[u8]) -> Result<Row<User>, UsersFault>
    requires { length bytes.now < 2 ^ 32 }
    ensures { Answers (λ users. users) fault_cause result (users_of bytes.now) }
{
    read_lines(alloc, &UserReader, bytes)
}

/// A law on all bytes: what [`read_users`] reads of them is what the grammar of a file of users
/// says, the first refused line included. It does nothing.
#[tactic(auto, using(crate::proofs::UsersMeant::users_mean))]
pub fn users_follow_grammar(_bytes: &[u8])
    ensures { (meant : _) → (users_of _bytes.now ≡ meant) ↔ UsersMean _bytes.now meant }
{}
