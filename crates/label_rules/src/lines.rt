ghost use Rattle.std.specs.Prelude.{◌≡◌, Some, option_map};
ghost use Rattle.std.specs.Option.{option_copied};
ghost use Rattle.file_paths.specs.PathRef.{path_of};
ghost use Rattle.context_syntax.specs.ContextRef.{context_lent};
ghost use Rattle.report_text.specs.Message.{message_of};
ghost use Rattle.label_rules.specs.Decide.{given_in};
ghost use Rattle.label_rules.specs.Decide.{label_by};
ghost use Rattle.label_rules.specs.LabelAfter.{label_seen};
ghost use Rattle.label_rules.specs.Verdicts.{verdict_of};
ghost use Rattle.label_rules.specs.Lines.{conflict_line, customized_line, verdict_line};

use crate::label_after::LabelAfter;
use crate::verdict::Verdict;
use context_syntax::{Context, ContextRef, Label};
use file_paths::PathRef;
use report_text::Message;

/// The label after a verdict.
pub fn label_by<'a>(verdict: &Verdict<'a>, label: &'a Label) -> LabelAfter<'a>
    ensures { label_seen result ≡ label_by (verdict_of verdict.now) label.now }
{
    match verdict {
        Verdict::Keep | Verdict::Customized => LabelAfter::Kept(label),
        Verdict::Change(context) => LabelAfter::Given(*context),
    }
}

/// The context that a verdict gives.
pub fn given_in<'a>(verdict: &Verdict<'a>) -> Option<ContextRef<'a>>
    ensures { option_map context_lent result ≡ given_in (verdict_of verdict.now) }
{
    match verdict {
        Verdict::Keep | Verdict::Customized => None,
        Verdict::Change(context) => Some(*context),
    }
}

fn customized_line<'a>(path: &PathRef<'a>, label: &'a Label) -> Option<Message<'a>>
    ensures { option_map message_of result ≡ customized_line (path_of path.now) label.now }
{
    match label {
        Label::Absent | Label::Odd(_) => None,
        Label::Is(context) => Some(Message::Customized {
            path: *path,
            label: context,
        }),
    }
}

/// The line of a verdict on a label, told at this path.
pub fn verdict_line<'a>(
    path: &PathRef<'a>,
    label: &'a Label,
    dry: bool,
    verdict: &Verdict<'a>,
) -> Option<Message<'a>>
    ensures { option_map message_of result
        ≡ verdict_line (path_of path.now) label.now dry (verdict_of verdict.now) }
{
    match verdict {
        Verdict::Keep => None,
        Verdict::Customized => customized_line(path, label),
        Verdict::Change(context) => Some(Message::Relabel {
            path: *path,
            from: label,
            to: *context,
            dry,
        }),
    }
}

fn conflict<'a>(
    first: &PathRef<'a>,
    second: &PathRef<'a>,
    context: &Context,
    used: &'a Context,
) -> Option<Message<'a>>
    ensures { option_map message_of result
        ≡ conflict_line (path_of first.now) (path_of second.now)
        (Some context.now) (Some used.now) }
{
    if *context == *used {
        return None;
    }
    Some(Message::Conflict {
        first: *first,
        second: *second,
        used,
    })
}

/// The line of a name that is decided to the one context, where its group's winner is decided to
/// the other.
pub fn conflict_line<'a>(
    first: &PathRef<'a>,
    second: &PathRef<'a>,
    context: Option<&Context>,
    used: Option<&'a Context>,
) -> Option<Message<'a>>
    ensures { option_map message_of result
        ≡ conflict_line (path_of first.now) (path_of second.now)
        (option_copied context.entry) (option_copied used.entry) }
{
    match (context, used) {
        (Some(context), Some(used)) => conflict(first, second, context, used),
        _ => None,
    }
}
