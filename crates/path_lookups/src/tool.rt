ghost use Rattle.std.specs.Prelude.{◌≡◌};
ghost use Rattle.run_input.specs.Files.{Reads};
ghost use Rattle.path_lookups.specs.Plan.{rules_found};

use crate::answer::answer_of;
use crate::path_rules::PathRules;
use crate::words::LookupWords;
use context_syntax::TypeNames;
use file_roles::FileList;
use find_records::Format;
use input_output::Store;
use label_base::OutOfMemory;
use label_rules::ListedRules;
use policy_files::{add_policy, read_spec_list, read_substitutions};
use run_endings::Ending;
use run_faults::Cause;
use std::alloc::Global;
use tool_runs::Tool;
use tree_model::Tree;

// Reads the specifications, then the substitutions; no look-up asks for customizable types.
fn read_listed<S: Store>(
    alloc: Global,
    list: &FileList,
    store: &mut S,
) -> Result<ListedRules, Cause>
    ensures { Reads S.files S.calls S.read_faults S.write_faults (rules_found list.now)
        store.old store.new result }
{
    let specs = read_spec_list(alloc, list, 0, store)?;
    let subs = read_substitutions(alloc, list, 0, store)?;
    Ok(ListedRules::new(specs, subs, TypeNames::new(alloc)))
}

// Reads the rules for look-ups of so many paths.
fn read_found<S: Store>(
    alloc: Global,
    list: &FileList,
    paths: usize,
    store: &mut S,
) -> Result<PathRules, Cause>
    ensures { Reads S.files S.calls S.read_faults S.write_faults (rules_found list.now)
        store.old store.new result }
{
    let rules = read_listed(alloc, list, store)?;
    Ok(PathRules::new(alloc, rules, paths)?)
}

impl Tool for LookupWords {
    ghost use Rattle.std.specs.Prelude.{◌<◌, ◌^◌, None, Ok, false, length};
    ghost use Rattle.path_lookups.specs.Answer.{lookups_of};
    ghost use Rattle.path_lookups.specs.Plan.{lookup_names, lookup_records};

    type Found = PathRules;

    ghost reads = { lookup_names };

    ghost records = { lookup_records };

    ghost is_soft = { λ words. false };

    ghost output = { λ words. None };

    ghost files_say = { λ words. rules_found (lookup_names words) };

    ghost IsFit = { λ words. length words.paths < 2 ^ 31 };

    ghost answered = { λ words found entries. Ok (lookups_of words found entries) };

    fn file_list(&self, alloc: Global) -> Result<FileList, OutOfMemory> {
        let mut list = FileList::new(alloc);
        add_policy(alloc, 0, self.base.as_str(), &mut list)?;
        Ok(list)
    }

    fn record_format(&self) -> Option<Format> {
        if self.verify { Some(self.format) } else { None }
    }

    fn has_soft_errors(&self) -> bool {
        false
    }

    fn read_files<S: Store>(
        &self,
        alloc: Global,
        list: &FileList,
        store: &mut S,
    ) -> Result<PathRules, Cause> {
        read_found(alloc, list, self.paths.len(), store)
    }

    fn answer(&self, alloc: Global, found: &PathRules, tree: &Tree) -> Result<Ending, Cause> {
        Ok(answer_of(alloc, self, found, tree)?)
    }
}
