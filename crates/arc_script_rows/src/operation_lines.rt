//! Lines of operations, form by form.

use crate::rows::{DECLARED, check_rows};
use std::test::Fail;

static NEW: [(&str, u32); 21] = [
    ("new a A", 0),
    ("new s B", 0),
    ("  new\ta   A  ", 0),
    ("new a A\x7f", 1),
    ("newer a A", 2),
    ("new", 3),
    ("new a", 3),
    ("new a A A", 3),
    ("new 1 A", 5),
    ("new a 1", 5),
    ("new a.f A", 5),
    ("new @p A", 5),
    ("new abbbbbbbbbbbbbbbbbbbbbbbbbbbbbbbb A", 5),
    ("new abbbbbbbbbbbbbbbbbbbbbbbbbbbbbbb A", 7),
    ("new c A", 7),
    ("new a C", 7),
    ("new u C", 7),
    ("new u A", 8),
    ("new w B", 8),
    ("new a B", 9),
    ("new s A", 9),
];

static COPY: [(&str, u32); 20] = [
    ("copy a b", 0),
    ("copy u t", 0),
    ("copy a\x01 b", 1),
    ("copi a b", 2),
    ("copy a", 3),
    ("copy a b s", 3),
    ("copy a 1", 5),
    ("copy c 1", 5),
    ("copy a a.f", 5),
    ("copy a c", 7),
    ("copy c a", 7),
    ("copy c c", 7),
    ("copy a u", 8),
    ("copy w u", 8),
    ("copy u s", 8),
    ("copy a s", 9),
    ("copy u z", 9),
    ("copy w x", 9),
    ("copy a a", 10),
    ("copy w w", 10),
];

static MOVE: [(&str, u32); 17] = [
    ("move a b", 0),
    ("move t u", 0),
    ("move \x1f b", 1),
    ("mov a b", 2),
    ("move", 3),
    ("move a", 3),
    ("move a b s", 3),
    ("move _ b", 5),
    ("move a @p", 5),
    ("move a c", 7),
    ("move c a", 7),
    ("move a w", 8),
    ("move x s", 8),
    ("move b s", 9),
    ("move z u", 9),
    ("move w w", 10),
    ("move s s", 10),
];

static DROP: [(&str, u32); 13] = [
    ("drop a", 0),
    ("drop z", 0),
    ("drop w", 0),
    ("drop a\u{80}", 1),
    ("drops a", 2),
    ("drop", 3),
    ("drop a b", 3),
    ("drop -", 5),
    ("drop @p", 5),
    ("drop a.f", 5),
    ("drop A", 7),
    ("drop p", 7),
    ("drop f", 7),
];

static UNOWN: [(&str, u32); 17] = [
    ("unown u a", 0),
    ("unown z s", 0),
    ("unown u\x00 a", 1),
    ("unowned u a", 2),
    ("unown u", 3),
    ("unown u a b", 3),
    ("unown u 2", 5),
    ("unown @p a", 5),
    ("unown u c", 7),
    ("unown c a", 7),
    ("unown u t", 8),
    ("unown u u", 8),
    ("unown a b", 8),
    ("unown w a", 8),
    ("unown a u", 8),
    ("unown u s", 9),
    ("unown z a", 9),
];

static WEAK: [(&str, u32); 16] = [
    ("weak w a", 0),
    ("weak x s", 0),
    ("weak w\x7f a", 1),
    ("weaken w a", 2),
    ("weak w", 3),
    ("weak w a b", 3),
    ("weak w a.f", 5),
    ("weak 1 a", 5),
    ("weak w c", 7),
    ("weak c a", 7),
    ("weak u a", 8),
    ("weak w w", 8),
    ("weak w u", 8),
    ("weak a w", 8),
    ("weak w s", 9),
    ("weak x a", 9),
];

static LOAD: [(&str, u32); 19] = [
    ("load a w", 0),
    ("load a u", 0),
    ("load s x", 0),
    ("load s z", 0),
    ("load a w\x01", 1),
    ("loads a w", 2),
    ("load", 3),
    ("load a", 3),
    ("load a w u", 3),
    ("load a @p", 5),
    ("load 1 w", 5),
    ("load a c", 7),
    ("load c w", 7),
    ("load a b", 8),
    ("load a a", 8),
    ("load u t", 8),
    ("load w u", 8),
    ("load a x", 9),
    ("load s u", 9),
];

static GET: [(&str, u32); 42] = [
    ("get b a.f", 0),
    ("get a a.f", 0),
    ("get x a.g", 0),
    ("get u a.h", 0),
    ("get b s.n", 0),
    ("get a @p", 0),
    ("get x @q", 0),
    ("get a @p\x02", 1),
    ("gets a @p", 2),
    ("get", 3),
    ("get a", 3),
    ("get a f", 3),
    ("get a a.f.g", 3),
    ("get a a.f.", 3),
    ("get 1 a", 3),
    ("get a @p a", 3),
    ("get a a.", 5),
    ("get a .f", 5),
    ("get a .", 5),
    ("get a @", 5),
    ("get a @1", 5),
    ("get a @p.f", 5),
    ("get a @@p", 5),
    ("get 1 a.f", 5),
    ("get a.f a.f", 5),
    ("get a @pbbbbbbbbbbbbbbbbbbbbbbbbbbbbbbbb", 5),
    ("get a a.fbbbbbbbbbbbbbbbbbbbbbbbbbbbbbbbb", 5),
    ("get c a.f", 7),
    ("get a c.f", 7),
    ("get a a.n", 7),
    ("get a @a", 7),
    ("get a @c", 7),
    ("get a u.n", 7),
    ("get a u.f", 8),
    ("get s u.f", 8),
    ("get w a.f", 8),
    ("get a a.g", 8),
    ("get u @p", 8),
    ("get s a.f", 9),
    ("get w a.g", 9),
    ("get s @p", 9),
    ("get w @q", 9),
];

static SET: [(&str, u32); 32] = [
    ("set a.f b", 0),
    ("set a.g x", 0),
    ("set a.h u", 0),
    ("set s.n a", 0),
    ("set @p a", 0),
    ("set @q x", 0),
    ("set @p a\x03", 1),
    ("sets @p a", 2),
    ("set", 3),
    ("set @p", 3),
    ("set @p a b", 3),
    ("set p a", 3),
    ("set a.b.c a", 3),
    ("set p 1", 3),
    ("set @p 1", 5),
    ("set @ a", 5),
    ("set a. b", 5),
    ("set .f b", 5),
    ("set . b", 5),
    ("set @s a", 7),
    ("set a.f c", 7),
    ("set c.f a", 7),
    ("set w.n b", 7),
    ("set a.z a", 7),
    ("set w.f b", 8),
    ("set a.f u", 8),
    ("set @p w", 8),
    ("set w.f w", 8),
    ("set a.f s", 9),
    ("set @q w", 9),
    ("set @p s", 9),
    ("set a.f a", 10),
];

#[test]
fn new_lines(rt: HostRuntime) -> Result<(), Fail> {
    check_rows(&rt, rt.alloc(), DECLARED, 17, "\ndone\n", &NEW)
}

#[test]
fn copy_lines(rt: HostRuntime) -> Result<(), Fail> {
    check_rows(&rt, rt.alloc(), DECLARED, 17, "\ndone\n", &COPY)
}

#[test]
fn move_lines(rt: HostRuntime) -> Result<(), Fail> {
    check_rows(&rt, rt.alloc(), DECLARED, 17, "\ndone\n", &MOVE)
}

#[test]
fn drop_lines(rt: HostRuntime) -> Result<(), Fail> {
    check_rows(&rt, rt.alloc(), DECLARED, 17, "\ndone\n", &DROP)
}

#[test]
fn unown_lines(rt: HostRuntime) -> Result<(), Fail> {
    check_rows(&rt, rt.alloc(), DECLARED, 17, "\ndone\n", &UNOWN)
}

#[test]
fn weak_lines(rt: HostRuntime) -> Result<(), Fail> {
    check_rows(&rt, rt.alloc(), DECLARED, 17, "\ndone\n", &WEAK)
}

#[test]
fn load_lines(rt: HostRuntime) -> Result<(), Fail> {
    check_rows(&rt, rt.alloc(), DECLARED, 17, "\ndone\n", &LOAD)
}

#[test]
fn get_lines(rt: HostRuntime) -> Result<(), Fail> {
    check_rows(&rt, rt.alloc(), DECLARED, 17, "\ndone\n", &GET)
}

#[test]
fn set_lines(rt: HostRuntime) -> Result<(), Fail> {
    check_rows(&rt, rt.alloc(), DECLARED, 17, "\ndone\n", &SET)
}
