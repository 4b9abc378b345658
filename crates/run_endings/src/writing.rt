ghost use Rattle.std.specs.Prelude.{◌≡◌, None};
ghost use Rattle.input_output.specs.Store.{Calls, SaveCounts};
ghost use Rattle.run_endings.specs.Endings.{Saves, writes_of};

use crate::ending::Ending;
use input_output::{SaveFault, Store};
use std::alloc::Global;

/// Writes the text of an ending to its file, where it has one. It fails where the store does, and
/// for want of memory; without a file nothing is written and it never fails.
pub fn save<S: Store>(alloc: Global, ending: &Ending, store: &mut S) -> Result<(), SaveFault>
    ensures files { Saves (S.files store.old) (S.files store.new) ending.now.saved result }
    ensures counts { SaveCounts (S.write_faults store.old) (S.write_faults store.new) result }
    ensures reads { S.read_faults store.new ≡ S.read_faults store.old }
    ensures calls { Calls (S.calls store.old) (S.calls store.new) (writes_of ending.now.saved) }
    ensures unasked { ending.now.saved ≡ None → store.new ≡ store.old }
{
    match &ending.saved {
        None => Ok(()),
        Some(saved) => store.write_file(alloc, saved.name.as_str(), &saved.text),
    }
}
