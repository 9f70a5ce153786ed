//! Lines of a heading, form by form: version, slots, entries, caps, classes and globals.

use crate::rows::{HEADING, check_rows};
use std::test::Fail;

const ONE_CLASS: &str = "arc 1\nslots 1\nentries 1\nclass A\n";

static VERSION: [(&str, u32); 27] = [
    ("arc 1", 0),
    (" \tarc\t 1 ", 0),
    ("arc 1\x01", 1),
    ("arc 1\r", 1),
    ("arc\x0b1", 1),
    ("arc\x0c1", 1),
    ("\u{e4} 1", 1),
    ("ark 1", 2),
    ("Arc 1", 2),
    ("arc1", 2),
    ("end", 2),
    ("end x", 2),
    ("immortal A", 2),
    ("arc", 3),
    ("arc 1 1", 3),
    ("arc one two", 3),
    ("arc 0", 4),
    ("arc 2", 0),
    ("arc 3", 4),
    ("arc 2 1", 3),
    ("arc 02", 4),
    ("arc 2\x01", 1),
    ("arc 01", 4),
    ("arc +1", 4),
    ("arc one", 4),
    ("arc 4294967297", 4),
    ("arc 18446744073709551617", 4),
];

static SLOTS: [(&str, u32); 19] = [
    ("slots 1", 0),
    ("slots 4096", 0),
    ("\tslots  4096\t", 0),
    ("slots 1\x7f", 1),
    ("slot 1", 2),
    ("slots", 3),
    ("slots 1 1", 3),
    ("slots x y", 3),
    ("slots 0", 4),
    ("slots 4097", 4),
    ("slots 01", 4),
    ("slots -1", 4),
    ("slots 1.", 4),
    ("slots 4294967295", 4),
    ("slots 4294967296", 4),
    ("slots 4294967297", 4),
    ("slots 18446744073709551615", 4),
    ("slots 18446744073709551616", 4),
    ("slots 18446744073709551617", 4),
];

static ENTRIES: [(&str, u32); 16] = [
    ("entries 1", 0),
    ("entries 4096", 0),
    ("entries 1 \x01", 1),
    ("entry 1", 2),
    ("entries", 3),
    ("entries 1 1", 3),
    ("entries 0", 4),
    ("entries 4097", 4),
    ("entries 00", 4),
    ("entries x", 4),
    ("entries 4294967295", 4),
    ("entries 4294967296", 4),
    ("entries 4294967297", 4),
    ("entries 18446744073709551615", 4),
    ("entries 18446744073709551616", 4),
    ("entries 18446744073709551617", 4),
];

static CAPS: [(&str, u32); 32] = [
    ("caps 0 1 1", 0),
    ("caps 1 1 2", 0),
    ("caps 1073741823 2147483647 4294967295", 0),
    ("caps 1073741823 2147483647 2147483647", 0),
    ("caps 1073741823 1 1073741824", 0),
    ("caps 1 1\x02 2", 1),
    ("capa 1 1 2", 2),
    ("caps", 3),
    ("caps 1 1", 3),
    ("caps 1 1 2 3", 3),
    ("caps 1 1 1 1", 3),
    ("caps 1073741824 1 4294967295", 4),
    ("caps 1 0 2", 4),
    ("caps 1 2147483648 4294967295", 4),
    ("caps 1 1 0", 4),
    ("caps 1 1 4294967296", 4),
    ("caps 01 1 2", 4),
    ("caps +1 1 2", 4),
    ("caps 4294967297 1 2", 4),
    ("caps 1 4294967297 2", 4),
    ("caps 1 1 4294967298", 4),
    ("caps 1 1 18446744073709551615", 4),
    ("caps 1 1 18446744073709551616", 4),
    ("caps 1 1 18446744073709551618", 4),
    ("caps 1 x 0", 4),
    ("caps 1 1 1", 12),
    ("caps 0 2 1", 12),
    ("caps 10 20 5", 12),
    ("caps 10 20 19", 12),
    ("caps 20 10 20", 12),
    ("caps 1073741823 1 1073741823", 12),
    ("caps 1073741823 2147483647 2147483646", 12),
];

static CLASS: [(&str, u32); 45] = [
    ("class A", 0),
    ("class A f:strong:A", 0),
    ("class A f:strong:A g:weak:A h:unowned:A", 0),
    ("\tclass  A\t f:strong:A ", 0),
    ("class end f:strong:end", 0),
    ("class strong strong:strong:strong", 0),
    ("class Abbbbbbbbbbbbbbbbbbbbbbbbbbbbbbb", 0),
    ("class A fbbbbbbbbbbbbbbbbbbbbbbbbbbbbbbb:weak:A", 0),
    ("class \x01", 1),
    ("class A\x0b", 1),
    ("class A f:strong:A\r", 1),
    ("klass A", 2),
    ("Class A", 2),
    ("class", 3),
    ("class A f", 3),
    ("class A f:strong", 3),
    ("class A f:strong:A:B", 3),
    ("class A f:strong:A:", 3),
    ("class 1 f", 3),
    ("class A f:strong:A g", 3),
    ("class A 1:strong:A g", 3),
    ("class 1", 5),
    ("class _A", 5),
    ("class A-B", 5),
    ("class A.B", 5),
    ("class A:B", 5),
    ("class Abbbbbbbbbbbbbbbbbbbbbbbbbbbbbbbb", 5),
    ("class A fbbbbbbbbbbbbbbbbbbbbbbbbbbbbbbbb:weak:A", 5),
    ("class A f:weak:Abbbbbbbbbbbbbbbbbbbbbbbbbbbbbbbb", 5),
    ("class A :strong:A", 5),
    ("class A f:strong:", 5),
    ("class A ::", 5),
    ("class A f:strong:A 1:strong:A", 5),
    ("class A f:bad:1", 5),
    ("class A f:strong:A f:strong:1", 5),
    ("class A f:strong:A f:weak:A", 6),
    ("class A f:strong:A f:weak:B", 6),
    ("class A f:strong:A g:strong:A f:bad:A", 6),
    ("class A f:strong:B", 7),
    ("class A f:bad:B", 7),
    ("class A f:strong:A g:strong:a", 7),
    ("class A f::B", 7),
    ("class A f::A", 8),
    ("class A f:Strong:A", 8),
    ("class A f:strong:A g:weakly:A", 8),
];

static EIGHT_FIELDS: [(&str, u32); 8] = [
    (
        "class A a:strong:A b:strong:A c:strong:A d:strong:A e:strong:A f:strong:A g:strong:A h:strong:A",
        0,
    ),
    (
        "class A a:strong:A b:strong:A c:strong:A d:strong:A e:strong:A f:strong:A g:strong:A h:strong:A i:strong:A",
        11,
    ),
    (
        "class A a:strong:A b:strong:A c:strong:A d:strong:A e:strong:A f:strong:A g:strong:A h:strong:A i:bad:A",
        8,
    ),
    (
        "class A a:strong:A b:strong:A c:strong:A d:strong:A e:strong:A f:strong:A g:strong:A h:strong:A i:strong:B",
        7,
    ),
    (
        "class A a:strong:A b:strong:A c:strong:A d:strong:A e:strong:A f:strong:A g:strong:A h:strong:A a:strong:B",
        6,
    ),
    (
        "class A a:strong:A b:strong:A c:strong:A d:strong:A e:strong:A f:strong:A g:strong:A h:strong:A 1:strong:A",
        5,
    ),
    (
        "class A a:strong:A b:strong:A c:strong:A d:strong:A e:strong:A f:strong:A g:strong:A h:strong:A i:strong",
        3,
    ),
    (
        "class A a:strong:A b:strong:A c:strong:A d:strong:A e:strong:A f:strong:A g:strong:A h:strong:A i:strong:A\x01",
        1,
    ),
];

static GLOBAL: [(&str, u32); 22] = [
    ("global p strong A", 0),
    ("global p unowned A", 0),
    ("global p weak A", 0),
    ("global A strong A", 0),
    ("global end strong A", 0),
    ("global pbbbbbbbbbbbbbbbbbbbbbbbbbbbbbbb weak A", 0),
    ("global p strong A\x01", 1),
    ("globals p strong A", 2),
    ("global", 3),
    ("global p strong", 3),
    ("global p strong A A", 3),
    ("global p A", 3),
    ("global 1 strong A", 5),
    ("global p strong 1", 5),
    ("global p.f strong A", 5),
    ("global @p strong A", 5),
    ("global pbbbbbbbbbbbbbbbbbbbbbbbbbbbbbbbb weak A", 5),
    ("global p strong B", 7),
    ("global p bad B", 7),
    ("global p bad A", 8),
    ("global p STRONG A", 8),
    ("global p : A", 8),
];

static SECOND_GLOBAL: [(&str, u32); 6] = [
    ("global q strong A", 0),
    ("global p strong A", 6),
    ("global p bad A", 6),
    ("global p strong B", 6),
    ("global p strong 1", 5),
    ("global p strong", 3),
];

#[test]
fn version_lines(rt: HostRuntime) -> Result<(), Fail> {
    let behind = "\nslots 1\nentries 1\ndone\n";
    check_rows(&rt, rt.alloc(), "", 1, behind, &VERSION)
}

#[test]
fn slots_lines(rt: HostRuntime) -> Result<(), Fail> {
    check_rows(&rt, rt.alloc(), "arc 1\n", 2, "\nentries 1\ndone\n", &SLOTS)
}

#[test]
fn entries_lines(rt: HostRuntime) -> Result<(), Fail> {
    check_rows(&rt, rt.alloc(), "arc 1\nslots 1\n", 3, "\ndone\n", &ENTRIES)
}

#[test]
fn caps_lines(rt: HostRuntime) -> Result<(), Fail> {
    check_rows(&rt, rt.alloc(), HEADING, 4, "\ndone\n", &CAPS)
}

#[test]
fn class_lines(rt: HostRuntime) -> Result<(), Fail> {
    check_rows(&rt, rt.alloc(), HEADING, 4, "\ndone\n", &CLASS)?;
    check_rows(&rt, rt.alloc(), HEADING, 4, "\ndone\n", &EIGHT_FIELDS)
}

#[test]
fn global_lines(rt: HostRuntime) -> Result<(), Fail> {
    check_rows(&rt, rt.alloc(), ONE_CLASS, 5, "\ndone\n", &GLOBAL)
}

#[test]
fn second_global_lines(rt: HostRuntime) -> Result<(), Fail> {
    let before = "arc 1\nslots 1\nentries 1\nclass A\nglobal p weak A\n";
    check_rows(&rt, rt.alloc(), before, 6, "\ndone\n", &SECOND_GLOBAL)
}
