use context_syntax::{
    Context, ContextFault, ContextRef, Label, NoTypeName, TypeNames, read_customizable,
    types_follow_grammar,
};
use label_base::{Bytes, Fault, OutOfMemory, RefusedLine};
use std::alloc::Global;
use std::test::Fail;

fn is_written_back(alloc: Global, bytes: &[u8]) -> Result<bool, OutOfMemory> {
    match Context::read(alloc, bytes) {
        Ok(context) => {
            let mut text = Bytes::new(alloc);
            context.write(&mut text)?;
            Ok(text.as_slice() == bytes)
        }
        Err(ContextFault::NoContext) => Ok(false),
        Err(ContextFault::OutOfMemory) => Err(OutOfMemory),
    }
}

#[test]
fn contexts(rt: HostRuntime) -> Result<(), Fail> {
    assert!(rt; is_written_back(rt.alloc(), b"system_u:object_r:root_t:s0")?);
    assert!(rt; is_written_back(rt.alloc(), b"user_u:r:kind-1.x_t:s0-s0:c0.c1023")?);
    Ok(())
}

fn has_words(context: &Context, user: &[u8], role: &[u8], kind: &[u8]) -> bool {
    context.user() == user && context.role() == role && context.kind() == kind
}

#[test]
fn the_parts_of_a_context(rt: HostRuntime) -> Result<(), Fail> {
    let context = Context::read(rt.alloc(), b"a_u:b_r:c_t:s0-s0:c1")?;
    assert!(rt; has_words(&context, b"a_u", b"b_r", b"c_t"));
    assert_eq!(rt; context.range(), Some(b"s0-s0:c1".as_slice()));
    assert_eq!(rt; context.as_text(), b"a_u:b_r:c_t:s0-s0:c1".as_slice());
    Ok(())
}

#[test]
fn no_contexts(rt: HostRuntime) -> Result<(), Fail> {
    assert!(rt; !is_written_back(rt.alloc(), b"system_u:object_r")?);
    assert!(rt; !is_written_back(rt.alloc(), b"system_u::root_t:s0")?);
    assert!(rt; !is_written_back(rt.alloc(), b"u:r:t:s\"0")?);
    Ok(())
}

fn takes_kind(alloc: Global, context: &Context, wanted: &Context) -> Result<bool, OutOfMemory> {
    let made = context.with_kind_of(alloc, wanted)?;
    Ok(made.same_but_user(wanted))
}

fn differs_till_it_takes_kind(
    alloc: Global,
    context: &Context,
    wanted: &[u8],
) -> Result<bool, Fail> {
    let wanted = Context::read(alloc, wanted)?;
    Ok(!context.same_but_user(&wanted) && takes_kind(alloc, context, &wanted)?)
}

#[test]
fn the_type_of_another_context(rt: HostRuntime) -> Result<(), Fail> {
    let found = Context::read(rt.alloc(), b"staff_u:object_r:tmp_t:s0")?;
    assert!(rt; differs_till_it_takes_kind(rt.alloc(), &found, b"system_u:object_r:etc_t:s0")?);
    Ok(())
}

fn is_written(alloc: Global, context: &ContextRef<'_>, bytes: &[u8]) -> Result<bool, OutOfMemory> {
    let mut text = Bytes::new(alloc);
    context.write(alloc, &mut text)?;
    Ok(text.as_slice() == bytes)
}

fn is_lent(alloc: Global, rest: &Context, kind: &[u8], bytes: &[u8]) -> Result<bool, Fail> {
    let kind = Context::read(alloc, kind)?;
    let retyped = ContextRef { rest, kind: &kind };
    Ok(is_written(alloc, &retyped, bytes)?)
}

#[test]
fn a_lent_type(rt: HostRuntime) -> Result<(), Fail> {
    let found = Context::read(rt.alloc(), b"staff_u:object_r:tmp_t:s0")?;
    let written = b"staff_u:object_r:etc_t:s0";
    assert!(rt; is_lent(rt.alloc(), &found, b"system_u:object_r:etc_t", written)?);
    Ok(())
}

#[test]
fn a_lent_context(rt: HostRuntime) -> Result<(), Fail> {
    let context = Context::read(rt.alloc(), b"u:r:t")?;
    let mut text = Bytes::new(rt.alloc());
    ContextRef::whole(&context).add(&mut text)?;
    assert_eq!(rt; text.as_slice(), b"u:r:t".as_slice());
    Ok(())
}

fn is_copied(alloc: Global, label: &Label) -> Result<bool, OutOfMemory> {
    Ok(label.copy(alloc)? == *label)
}

#[test]
fn labels(rt: HostRuntime) -> Result<(), Fail> {
    Label::follows_grammar(b"?");
    let label = Label::read(rt.alloc(), b"unlabeled")?;
    assert!(rt; matches!(&label, Label::Odd(_)) && is_copied(rt.alloc(), &label)?);
    Ok(())
}

#[test]
fn an_absent_label(rt: HostRuntime) -> Result<(), Fail> {
    assert!(rt; Label::read(rt.alloc(), b"?")? == Label::Absent);
    Ok(())
}

#[test]
fn customizable_types(rt: HostRuntime) -> Result<(), Fail> {
    types_follow_grammar(b"home_t");
    let types = read_customizable(rt.alloc(), b"# types\n\n \thome_t\nboot_t \nhome_t")?;
    assert!(rt; types.has(b"boot_t"));
    assert!(rt; !types.has(b"boot"));
    assert_eq!(rt; types.sorted().len(), 2);
    Ok(())
}

#[test]
fn a_line_of_two_fields(rt: HostRuntime) {
    let refused = read_customizable(rt.alloc(), b"boot_t\n#\nhome_t etc_t\n").err();
    let third = RefusedLine {
        number: 3,
        why: NoTypeName,
    };
    assert_eq!(rt; refused, Some(Fault::Why(third)));
}

fn equals_its_copy(alloc: Global, context: &Context) -> Result<bool, OutOfMemory> {
    Ok(context.copy(alloc)? == *context)
}

fn equals(alloc: Global, context: &Context, bytes: &[u8]) -> Result<bool, Fail> {
    Ok(*context == Context::read(alloc, bytes)?)
}

#[test]
fn a_copy(rt: HostRuntime) -> Result<(), Fail> {
    let context = Context::read(rt.alloc(), b"u:r:t:s0")?;
    assert!(rt; equals_its_copy(rt.alloc(), &context)?);
    assert!(rt; !equals(rt.alloc(), &context, b"u:r:t:s1")?);
    Ok(())
}

#[test]
fn no_types(rt: HostRuntime) {
    assert!(rt; !TypeNames::new(rt.alloc()).has(b"t"));
}
