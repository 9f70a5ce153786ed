//! Lines of threads, form by form, that are no operations: threads, variables, phases and schedules; and lines of no form.

use crate::rows::{DECLARED, HEADING, check_rows};
use std::test::Fail;

static THREAD: [(&str, u32); 14] = [
    ("thread 2", 0),
    ("thread 2\x01", 1),
    ("threads 2", 2),
    ("thread", 3),
    ("thread 2 3", 3),
    ("thread 7 8", 3),
    ("thread 1", 4),
    ("thread 3", 4),
    ("thread 0", 4),
    ("thread 02", 4),
    ("thread x", 4),
    ("thread @p", 4),
    ("thread 4294967298", 4),
    ("thread 18446744073709551618", 4),
];

static NO_THREADS: [(&str, u32); 5] = [
    ("schedule 1", 4),
    ("schedule 0", 4),
    ("schedule", 3),
    ("thread 2", 4),
    ("thread 1", 0),
];

static VAR: [(&str, u32); 24] = [
    ("var y strong A", 0),
    ("var y unowned B", 0),
    ("var y weak A", 0),
    ("var p strong A", 0),
    ("var A strong A", 0),
    ("var f strong A", 0),
    ("var drop strong A", 0),
    ("var ybbbbbbbbbbbbbbbbbbbbbbbbbbbbbbb weak A", 0),
    ("var y\x01 strong A", 1),
    ("vars y strong A", 2),
    ("var", 3),
    ("var y strong", 3),
    ("var y strong A A", 3),
    ("var 1 strong A", 5),
    ("var y strong 1", 5),
    ("var a.f strong A", 5),
    ("var ybbbbbbbbbbbbbbbbbbbbbbbbbbbbbbbb weak A", 5),
    ("var a strong A", 6),
    ("var a bad A", 6),
    ("var a strong C", 6),
    ("var y strong C", 7),
    ("var y kind C", 7),
    ("var y kind A", 8),
    ("var y Weak A", 8),
];

static PHASE: [(&str, u32); 6] = [
    ("phase", 0),
    ("\tphase ", 0),
    ("phase\x01", 1),
    ("phases", 2),
    ("phase 1", 3),
    ("phase a b", 3),
];

static SCHEDULE: [(&str, u32); 12] = [
    ("schedule 1", 0),
    ("schedule 1 1 1", 0),
    ("schedule 1\x01", 1),
    ("schedules 1", 2),
    ("schedule", 3),
    ("schedule 0", 4),
    ("schedule 2", 4),
    ("schedule 1 2", 4),
    ("schedule 1 01", 4),
    ("schedule 1 x", 4),
    ("schedule 4294967297", 4),
    ("schedule 18446744073709551617", 4),
];

static OTHER: [(&str, u32); 18] = [
    ("done x", 3),
    ("done done", 3),
    ("done\x01", 1),
    ("do", 2),
    ("x\x01", 1),
    ("ifnil a", 2),
    ("ifsome a", 2),
    ("end", 2),
    ("end x", 2),
    ("immortal A", 2),
    ("1", 2),
    ("@p", 2),
    ("class", 2),
    ("# \x01", 0),
    (" \t #done", 0),
    ("#", 0),
    (" ", 0),
    ("", 0),
];

#[test]
fn thread_lines(rt: HostRuntime) -> Result<(), Fail> {
    check_rows(&rt, rt.alloc(), DECLARED, 17, "\ndone\n", &THREAD)
}

#[test]
fn lines_without_threads(rt: HostRuntime) -> Result<(), Fail> {
    check_rows(&rt, rt.alloc(), HEADING, 4, "\ndone\n", &NO_THREADS)
}

#[test]
fn var_lines(rt: HostRuntime) -> Result<(), Fail> {
    check_rows(&rt, rt.alloc(), DECLARED, 17, "\ndone\n", &VAR)
}

#[test]
fn phase_lines(rt: HostRuntime) -> Result<(), Fail> {
    check_rows(&rt, rt.alloc(), DECLARED, 17, "\ndone\n", &PHASE)
}

#[test]
fn schedule_lines(rt: HostRuntime) -> Result<(), Fail> {
    check_rows(&rt, rt.alloc(), DECLARED, 17, "\ndone\n", &SCHEDULE)
}

#[test]
fn other_lines(rt: HostRuntime) -> Result<(), Fail> {
    check_rows(&rt, rt.alloc(), DECLARED, 17, "\ndone\n", &OTHER)
}
