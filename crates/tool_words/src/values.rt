ghost use Rattle.std.specs.Prelude.{◌≡◌};
ghost use Rattle.label_base.specs.Kind.{class_kind};
ghost use Rattle.tool_words.specs.Values.{name_wrong, number_named, unless_some};
ghost use Rattle.tool_words.specs.declared.usage.UsageWhy.TheVariants.{BadKind, BadNumber};

use crate::usage::UsageWhy;
use label_base::{EntryKind, read_number};

/// The number up to a greatest one that a value names.
pub fn number_named(most: u32, text: &str) -> Option<u32>
    ensures { result ≡ number_named most text.now }
{
    let number = read_number(text.as_bytes())?;
    if number <= most as u64 {
        Some(number as u32)
    } else {
        None
    }
}

/// What is wrong with a number up to a greatest one.
pub fn number_wrong(most: u32, text: &str) -> Option<UsageWhy>
    ensures { result ≡ unless_some BadNumber (number_named most text.now) }
{
    match number_named(most, text) {
        Some(_) => None,
        None => Some(UsageWhy::BadNumber),
    }
}

/// What is wrong with a type of files.
pub fn kind_wrong(text: &str) -> Option<UsageWhy>
    ensures { result ≡ unless_some BadKind (class_kind text.now) }
{
    match EntryKind::of_class_name(text) {
        Some(_) => None,
        None => Some(UsageWhy::BadKind),
    }
}

/// What is wrong with the name of a file.
pub fn name_wrong(text: &str) -> Option<UsageWhy>
    ensures { result ≡ name_wrong text.now }
{
    match text.as_bytes() {
        [] => Some(UsageWhy::BadPath),
        _ => None,
    }
}
