ghost use Rattle.std.specs.Prelude.{◌<◌, ◌^◌, IfOk, length};

use file_paths::NormPath;
use home_contexts::{
    HomesFault, HomesWhy, HomesWords, NoUser, User, UsersFault, escape_path, expand, read_homes,
    read_users, users_follow_grammar,
};
use label_base::{Bytes, Fault, OutOfMemory, RefusedLine, Row};
use pattern_syntax::PatternWhy;
use spec_reader::SpecWhy;
use std::alloc::Global;
use std::test::Fail;
use tool_words::{Usage, UsageWhy};

const USERS: &[u8] = b"# users\nana user /home/ana\n\tb.o  staff /home/b.o/ more\n";

const TEMPLATE: &[u8] = b"# homes
HOME_ROOT\t-d\tsystem_u:object_r:home_root_t:s0
HOME_DIR\t-d\tunconfined_u:object_r:ROLE_home_dir_t:s0
HOME_DIR/.+\tunconfined_u:object_r:ROLE_home_t:s0
/srv\tsystem_u:object_r:srv_t:s0
";

const HOMES: &[u8] = b"/home\t-d\tsystem_u:object_r:home_root_t:s0
/home/ana\t-d\tunconfined_u:object_r:user_home_dir_t:s0
/home/b\\.o\t-d\tunconfined_u:object_r:staff_home_dir_t:s0
/home/ana/.+\tunconfined_u:object_r:user_home_t:s0
/home/b\\.o/.+\tunconfined_u:object_r:staff_home_t:s0
";

#[test]
fn a_path_is_escaped(rt: HostRuntime) -> Result<(), Fail> {
    let path = NormPath::read(rt.alloc(), b"/home/b.o-1_(x".as_slice())?;
    let mut to = Bytes::copy_of(rt.alloc(), b"^".as_slice())?;
    escape_path(rt.alloc(), &path, &mut to)?;
    assert_eq!(rt; to.as_slice(), b"^/home/b\\.o-1_\\(x".as_slice());
    Ok(())
}

#[test]
fn reads_users(rt: HostRuntime) -> Result<(), Fail> {
    users_follow_grammar(USERS);
    let users = read_users(rt.alloc(), USERS)?;
    assert_eq!(rt; users.len(), 2);
    let user = users.get(1);
    assert_eq!(rt; user.name.as_slice(), b"b.o".as_slice());
    assert_eq!(rt; user.role.as_slice(), b"staff".as_slice());
    assert_eq!(rt; user.home.as_text(), b"/home/b.o".as_slice());
    Ok(())
}

fn users_fault(rt: &HostRuntime, text: &[u8]) -> Option<UsersFault>
    requires { length text.now < 2 ^ 32 }
{
    read_users(rt.alloc(), text).err()
}

#[test]
fn refuses_what_is_no_user(rt: HostRuntime) {
    for line in [
        "ana user",
        "ana user /root",
        "a:b user /home/a",
        "a (r) /home/a",
        "a r home/a",
    ] {
        let refused = RefusedLine {
            number: 1,
            why: NoUser,
        };
        let fault = users_fault(&rt, line.as_bytes());
        assert_eq!(rt; fault, Some(Fault::Why(refused)), "at {line}");
    }
}

fn homes_of(rt: &HostRuntime, template: &[u8], users: &Row<User>) -> Result<Bytes, HomesFault>
    requires { length template.now < 2 ^ 32 }
{
    expand(rt.alloc(), template, users)
}

#[test]
fn a_template_gives_lines(rt: HostRuntime) -> Result<(), Fail> {
    let users = read_users(rt.alloc(), USERS)?;
    let homes = homes_of(&rt, TEMPLATE, &users)?;
    assert_eq!(rt; homes.as_slice(), HOMES);
    Ok(())
}

#[test]
fn a_given_line_is_refused(rt: HostRuntime) -> Result<(), Fail> {
    let users = read_users(rt.alloc(), USERS)?;
    let template = b"# bad\nHOME_DIR[ unconfined_u:object_r:x_t:s0".as_slice();
    let refused = RefusedLine {
        number: 2,
        why: SpecWhy::BadPattern(PatternWhy::Syntax { at: 9 }),
    };
    let fault = homes_of(&rt, template, &users).err();
    assert_eq!(rt; fault, Some(Fault::Why(HomesWhy::Refused(refused))));
    Ok(())
}

fn words_of(alloc: Global, words: &[&str]) -> Result<Vec<String>, OutOfMemory>
    ensures { IfOk result (λ made. length made.items < 2 ^ 30) }
{
    let mut made = Vec::new(alloc);
    'words: for word in words {
        made.push(String::from_str(alloc, word)?)?;
    }
    if made.len() >= 1 << 30 {
        return Err(OutOfMemory);
    }
    Ok(made)
}

fn homes_words(alloc: Global, words: &[&str]) -> Result<HomesWords, Fault<Usage>> {
    let words = words_of(alloc, words)?;
    read_homes(alloc, words.as_slice(), 1)
}

#[test]
fn of_a_repeated_letter_the_last_counts(rt: HostRuntime) -> Result<(), Fail> {
    let words = homes_words(rt.alloc(), &["-t", "a", "-ub", "-o", "c", "-t", "d"])?;
    assert_eq!(rt; words.template.as_str(), "d");
    assert_eq!(rt; words.users.as_str(), "b");
    Ok(())
}

#[test]
fn what_is_missing_is_told(rt: HostRuntime) {
    for (words, why) in [
        (["-t", "a", "-o", "b"], UsageWhy::MissingOperand),
        (["-t", "a", "-u", "b"], UsageWhy::NoOutput),
    ] {
        let fault = homes_words(rt.alloc(), &words).err();
        assert_eq!(rt; fault, Some(Fault::Why(Usage { index: 5, why })));
    }
}
