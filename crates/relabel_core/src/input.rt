ghost use Rattle.std.specs.Prelude.{◌≡◌, ◌+◌, ◌<◌, ◌^◌, length};
ghost use Rattle.find_records.specs.Record.{AreOfFormat};
ghost use Rattle.tree_model.specs.Selection.{selected_by};
ghost use Rattle.relabel_core.specs.Stored.{digests_of};
ghost use Rattle.relabel_core.specs.Walked.{IsFit, walk_for, walk_of};

use crate::options::Options;
use crate::stored::Stored;
use file_paths::NormPath;
use label_base::Row;
use label_rules::Rules;
use tree_model::{Choice, Selected, Tree};

/// What a walk goes over, and by what.
#[derive(Clone, Copy)]
pub struct WalkInput<'a> {
    pub tree: &'a Tree,
    /// What was selected there of the operands.
    pub chosen: &'a Selected,
    pub operands: &'a Row<NormPath>,
    pub rules: &'a Rules,
    pub options: Options,
    /// The digests that the directories of the tree have.
    pub stored: &'a Stored,
}

/// A walk over a tree, of what a choice selected there. Each entry has to have a link count where
/// the options' format has one, and none else; entries and operands together have to be fewer than
/// 2^32.
pub fn walk_input<'a>(
    tree: &'a Tree,
    choice: &'a Choice,
    chosen: &'a Selected,
    rules: &'a Rules,
    options: Options,
    stored: &'a Stored,
) -> WalkInput<'a>
    requires chosen { chosen.now ≡ selected_by choice.now tree.now }
    requires format { AreOfFormat options.format tree.now }
    requires few { length tree.now + length choice.now.operands < 2 ^ 32 }
    ensures fit { IsFit result }
    ensures walk { walk_of result
        ≡ walk_for tree.now choice.now rules.now options (digests_of stored.now) }
    ensures operands { result.operands.now ≡ choice.now.operands }
    ensures selected { result.chosen.now ≡ selected_by choice.now tree.now }
{
    tree.rises();
    WalkInput {
        tree,
        chosen,
        operands: &choice.operands,
        rules,
        options,
        stored,
    }
}
