ghost use Rattle.std.specs.Prelude.{◌≡◌, ◌<◌, ◌^◌, IfOk, length};
ghost use Rattle.path_lookups.specs.Answer.{lookups_of, found_ending, lookup_end, verified_ending};

use crate::found::{Lookup, add_found_report};
use crate::path_rules::PathRules;
use crate::verified::{Verification, add_verified_report};
use crate::words::LookupWords;
use label_base::{Bytes, OutOfMemory, PiecedText};
use run_endings::{End, Ending};
use std::alloc::Global;
use tree_model::Tree;

fn lookup_end(count: u32) -> End
    ensures { result ≡ lookup_end count }
{
    if count == 0 {
        End::Done
    } else {
        End::Differs { count }
    }
}

fn found_ending(
    alloc: Global,
    words: &LookupWords,
    rules: &PathRules,
) -> Result<Ending, OutOfMemory>
    ensures { IfOk result (λ ending. ending ≡ found_ending words.now rules.now) }
{
    let lookup = Lookup {
        rules,
        kind: words.asked,
        bare: words.bare,
    };
    let mut report = Bytes::new(alloc);
    add_found_report(alloc, &lookup, words.paths.as_slice(), &mut report)?;
    Ok(Ending {
        report: PiecedText::of(alloc, report)?,
        end: End::Done,
        saved: None,
    })
}

fn verified_ending(
    alloc: Global,
    words: &LookupWords,
    rules: &PathRules,
    tree: &Tree,
) -> Result<Ending, OutOfMemory>
    requires { length words.now.paths < 2 ^ 31 }
    ensures { IfOk result (λ ending. ending ≡ verified_ending words.now rules.now tree.now) }
{
    let by = Verification {
        rules,
        tree,
        kind: words.asked,
    };
    let mut report = Bytes::new(alloc);
    let count = add_verified_report(alloc, &by, words.paths.as_slice(), &mut report)?;
    Ok(Ending {
        report: PiecedText::of(alloc, report)?,
        end: lookup_end(count),
        saved: None,
    })
}

/// What matchpathcon writes. It fails for want of memory alone.
#[tactic(auto, unfolding(crate::specs::Answer::lookups_of))]
pub fn answer_of(
    alloc: Global,
    words: &LookupWords,
    rules: &PathRules,
    tree: &Tree,
) -> Result<Ending, OutOfMemory>
    requires { length words.now.paths < 2 ^ 31 }
    ensures { IfOk result (λ ending. ending ≡ lookups_of words.now rules.now tree.now) }
{
    if words.verify {
        return verified_ending(alloc, words, rules, tree);
    }
    found_ending(alloc, words, rules)
}
