ghost use Rattle.std.specs.Prelude.{◌<◌, ◌^◌, length};

use context_syntax::{TypeNames, read_customizable};
use dir_digest::{
    Digest, Mode, accepted_files_give_listings, constants_are_stated, digest,
    equal_listings_decide_alike, listing, listings_read_back,
};
use file_paths::NormPath;
use file_roles::Part;
use find_records::Format;
use label_base::Bytes;
use path_subs::{SubList, Subs, read_subs};
use sha1::Sha1;
use spec_match::RuleSet;
use spec_reader::read_specs;
use std::alloc::Global;
use std::test::Fail;

const SRV: &[u8] = b"/srv(/.*)? system_u:object_r:var_t:s0\n";

fn rules_of(alloc: Global, specs: &[u8]) -> Result<RuleSet, Fail>
    requires { length specs.now < 2 ^ 32 }
{
    Ok(RuleSet::new(alloc, read_specs(alloc, specs, Part::Base, 9)?)?)
}

fn list_of(alloc: Global, lines: &[u8]) -> Result<SubList, Fail>
    requires { length lines.now < 2 ^ 32 }
{
    Ok(SubList::new(alloc, read_subs(alloc, lines)?)?)
}

fn subs_of(alloc: Global, first: &[u8], second: &[u8]) -> Result<Subs, Fail>
    requires first { length first.now < 2 ^ 32 }
    requires second { length second.now < 2 ^ 32 }
{
    Ok(Subs {
        first: list_of(alloc, first)?,
        second: list_of(alloc, second)?,
    })
}

fn types_of(alloc: Global) -> Result<TypeNames, Fail> {
    Ok(read_customizable(alloc, b"public_content_t\nmnt_t\n")?)
}

fn listing_at(
    alloc: Global,
    dir: &NormPath,
    mode: Mode,
    subs: &Subs,
    rules: &RuleSet,
) -> Result<Bytes, Fail> {
    let types = types_of(alloc)?;
    Ok(listing(alloc, &dir.path(), Format::One, mode, &types, subs, rules)?)
}

fn listing_by(
    alloc: Global,
    dir: &[u8],
    mode: Mode,
    subs: &Subs,
    rules: &RuleSet,
) -> Result<Bytes, Fail> {
    let dir = NormPath::read(alloc, dir)?;
    listing_at(alloc, &dir, mode, subs, rules)
}

fn listing_with(
    alloc: Global,
    dir: &[u8],
    mode: Mode,
    first: &[u8],
    second: &[u8],
    rules: &RuleSet,
) -> Result<Bytes, Fail>
    requires first { length first.now < 2 ^ 32 }
    requires second { length second.now < 2 ^ 32 }
{
    let subs = subs_of(alloc, first, second)?;
    listing_by(alloc, dir, mode, &subs, rules)
}

// The listing of a directory, where `public_content_t` and `mnt_t` are customizable.
fn listed(
    alloc: Global,
    dir: &[u8],
    mode: Mode,
    first: &[u8],
    second: &[u8],
    specs: &[u8],
) -> Result<Bytes, Fail>
    requires first { length first.now < 2 ^ 32 }
    requires second { length second.now < 2 ^ 32 }
    requires specs { length specs.now < 2 ^ 32 }
{
    let rules = rules_of(alloc, specs)?;
    listing_with(alloc, dir, mode, first, second, &rules)
}

fn plain_listing(
    alloc: Global,
    dir: &NormPath,
    format: Format,
    rules: &RuleSet,
) -> Result<Bytes, Fail> {
    let subs = subs_of(alloc, b"", b"")?;
    let types = TypeNames::new(alloc);
    Ok(listing(
        alloc,
        &dir.path(),
        format,
        Mode::KindOnly,
        &types,
        &subs,
        rules,
    )?)
}

fn plain_digest(alloc: Global, dir: &NormPath, rules: &RuleSet) -> Result<Digest, Fail> {
    let subs = subs_of(alloc, b"", b"")?;
    let types = TypeNames::new(alloc);
    Ok(digest(
        alloc,
        &dir.path(),
        Format::One,
        Mode::KindOnly,
        &types,
        &subs,
        rules,
    )?)
}

#[test]
fn a_directory_is_listed(rt: HostRuntime) -> Result<(), Fail> {
    let dir = NormPath::read(rt.alloc(), b"/srv")?;
    let bytes = plain_listing(rt.alloc(), &dir, Format::One, &rules_of(rt.alloc(), SRV)?)?;
    assert_eq!(rt;
        bytes.as_slice(),
        b"relabel-listing-1\0/srv\0T\x000\x000\x000\x001\0/srv(/.*)?\0\0\
            system_u:object_r:var_t:s0\0"
            .as_slice()
    );
    Ok(())
}

#[test]
fn a_listing_tells_the_records_format(rt: HostRuntime) -> Result<(), Fail> {
    let dir = NormPath::read(rt.alloc(), b"/srv")?;
    let bytes = plain_listing(rt.alloc(), &dir, Format::Two, &rules_of(rt.alloc(), SRV)?)?;
    assert_eq!(rt;
        bytes.as_slice(),
        b"relabel-listing-2\0/srv\0T\x000\x000\x000\x001\0/srv(/.*)?\0\0\
            system_u:object_r:var_t:s0\0"
            .as_slice()
    );
    Ok(())
}

// What sha1sum(1) says of these bytes.
#[test]
fn its_digest_is_their_sha_1(rt: HostRuntime) -> Result<(), Fail> {
    let dir = NormPath::read(rt.alloc(), b"/srv")?;
    let digest = plain_digest(rt.alloc(), &dir, &rules_of(rt.alloc(), SRV)?)?;
    assert_eq!(rt;
        digest.as_bytes(),
        b"\x8c\x82\xde\x11\x18\xbd\x47\x89\xfa\x61\
            \x32\x69\xb6\xde\x86\x5a\xd8\xd0\x63\xd8"
            .as_slice()
    );
    Ok(())
}

// RFC 3174 has the first, and NIST's examples of FIPS 180-4 both.
#[test]
fn digests_of_known_texts(rt: HostRuntime) {
    assert_eq!(rt;
        Sha1::digest(b"abc").as_slice(),
        b"\xa9\x99\x3e\x36\x47\x06\x81\x6a\xba\x3e\
            \x25\x71\x78\x50\xc2\x6c\x9c\xd0\xd8\x9d"
            .as_slice()
    );
    assert_eq!(rt;
        Sha1::digest(b"").as_slice(),
        b"\xda\x39\xa3\xee\x5e\x6b\x4b\x0d\x32\x55\
            \xbf\xef\x95\x60\x18\x90\xaf\xd8\x07\x09"
            .as_slice()
    );
}

// Types are listed in byte order, and specifications only where they can decide.
#[test]
fn types_and_specifications_are_listed(rt: HostRuntime) -> Result<(), Fail> {
    let bytes = listed(
        rt.alloc(),
        b"/a",
        Mode::KindOnly,
        b"",
        b"",
        b"/a -d u:r:a_t\n/b u:r:b_t\n/a/c -- <<none>>\n",
    )?;
    assert_eq!(rt;
        bytes.as_slice(),
        b"relabel-listing-1\0/a\0T\x002\0mnt_t\0public_content_t\x000\x000\x002\0/a\0-d\0u:r:a_t\0\
            /a/c\0--\0<<none>>\0"
            .as_slice()
    );
    Ok(())
}

// By force the types aren't listed. A source below the directory makes all specifications relevant.
#[test]
fn substitutions_are_listed(rt: HostRuntime) -> Result<(), Fail> {
    let bytes = listed(
        rt.alloc(),
        b"/w",
        Mode::Whole,
        b"/w /v\n/w/x /y\n",
        b"/v /u\n",
        b"/u u:r:a_t\n/b u:r:b_t\n",
    )?;
    assert_eq!(rt;
        bytes.as_slice(),
        b"relabel-listing-1\0/u\0F\x002\0/w\0/v\0/w/x\0/y\x001\0/v\0/u\x002\0/u\0\0u:r:a_t\0/b\0\0\
            u:r:b_t\0"
            .as_slice()
    );
    Ok(())
}

#[test]
fn laws_hold_of_all(_rt: HostRuntime) {
    listings_read_back();
    accepted_files_give_listings();
    equal_listings_decide_alike();
    constants_are_stated();
}

#[test]
fn a_void_digest(rt: HostRuntime) {
    assert_eq!(rt; Digest::VOID.as_bytes().len(), 20);
}
