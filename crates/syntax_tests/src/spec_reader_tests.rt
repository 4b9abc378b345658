ghost use Rattle.std.specs.Prelude.{◌<◌, ◌^◌, length};

use file_roles::Part;
use label_base::{EntryKind, Fault, LinesWhy, RefusedLine};
use pattern_syntax::PatternWhy;
use spec_reader::{Decision, SpecFault, SpecWhy, read_specs, specs_follow_grammar};
use std::test::Fail;

const PROC: &[u8] =
    b"# base policy\n\n \t/\t-d\tsystem_u:object_r:root_t:s0 more\n/proc/.* <<none>>";

#[test]
fn reads_lines(rt: HostRuntime) -> Result<(), Fail> {
    specs_follow_grammar(PROC, Part::Local, 2);
    let specs = read_specs(rt.alloc(), PROC, Part::Local, 2)?;
    assert_eq!(rt; specs.len(), 2);
    let root = specs.get(0);
    assert_eq!(rt; root.text(), b"/".as_slice());
    assert_eq!(rt; root.kind, Some(EntryKind::Directory));
    assert_eq!(rt; root.part, Part::Local);
    assert_eq!(rt; root.line, 3);
    let Decision::Give(context) = &root.decision else {
        return Err("no context".into());
    };
    assert_eq!(rt; context.kind(), b"root_t".as_slice());
    let proc = specs.get(1);
    assert_eq!(rt; proc.text(), b"/proc/.*".as_slice());
    assert_eq!(rt; proc.kind, None);
    assert_eq!(rt; proc.line, 4);
    assert!(rt; matches!(&proc.decision, Decision::Leave));
    Ok(())
}

fn fault_of(rt: &HostRuntime, text: &[u8], room: u32) -> Option<SpecFault>
    requires { length text.now < 2 ^ 32 }
{
    read_specs(rt.alloc(), text, Part::Base, room).err()
}

#[test]
fn refuses_lines(rt: HostRuntime) {
    let refused = |number, why| Some(Fault::Why(LinesWhy::Refused(RefusedLine { number, why })));
    assert_eq!(rt;
        fault_of(&rt, b"\n/a", 1),
        refused(2, SpecWhy::MissingContext)
    );
    assert_eq!(rt; fault_of(&rt, b"[ -x no", 1), refused(1, SpecWhy::BadKind));
    assert_eq!(rt;
        fault_of(&rt, b"[ -d no", 1),
        refused(1, SpecWhy::BadContext)
    );
    let pattern = SpecWhy::BadPattern(PatternWhy::Syntax { at: 0 });
    assert_eq!(rt; fault_of(&rt, b"[ -d <<none>>", 0), refused(1, pattern));
}

#[test]
fn counts_the_room(rt: HostRuntime) {
    let text = b"/a <<none>>\n# /b\n\n/c <<none>>\n/d";
    assert_eq!(rt; fault_of(&rt, text, 1), Some(Fault::Why(LinesWhy::TooMany)));
    let fifth = RefusedLine {
        number: 5,
        why: SpecWhy::MissingContext,
    };
    assert_eq!(rt;
        fault_of(&rt, text, 2),
        Some(Fault::Why(LinesWhy::Refused(fifth)))
    );
}
