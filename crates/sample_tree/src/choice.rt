ghost use Rattle.std.specs.Prelude.{◌≡◌, IfOk};
ghost use Rattle.sample_tree.specs.Choice.{sample_choice, sample_options};

use file_paths::NormPath;
use find_records::Format;
use label_base::{OutOfMemory, Row};
use relabel_core::Options;
use std::alloc::Global;
use tree_model::Choice;

/// What the walks over a sample are asked for: all of the tree.
pub fn sample_choice(alloc: Global) -> Result<Choice, OutOfMemory>
    ensures { IfOk result (λ choice. choice ≡ sample_choice) }
{
    let mut operands = Row::new(alloc);
    operands.push(NormPath::root(alloc))?;
    Ok(Choice {
        operands,
        excluded: Row::new(alloc),
        recurse: true,
        one_device: false,
    })
}

/// The options of a walk over a sample: those of `setfiles -F -v -D`.
pub fn sample_options() -> Options
    ensures { result ≡ sample_options }
{
    Options {
        force: true,
        dry: false,
        digests: true,
        ignore_digests: false,
        verbose: true,
        warn_unmatched: false,
        strict_links: false,
        ignore_absent: false,
        format: Format::One,
    }
}
