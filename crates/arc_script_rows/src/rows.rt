//! Rows of single lines: a row has the line, behind a text that is accepted up to there, and the number of its refusal, or 0
//! where it is accepted.

ghost use Rattle.std.specs.Prelude.{◌≤◌, length};

use arc_script::ReadFault;
use arc_script_reader::read_script;
use std::alloc::{AllocError, Global};
use std::process::Abort;
use std::test::Fail;

/// A heading without classes; the next line is line 4.
pub const HEADING: &str = "arc 1\nslots 1\nentries 1\n";

/// Classes, globals, and a thread with its variables; the next line is line 17.
pub const DECLARED: &str =
    "arc 1\nslots 1\nentries 1\nclass A f:strong:A g:weak:B h:unowned:A\nclass B n:strong:A\nglobal p strong A\nglobal q weak B\nthread 1\nvar a strong A\nvar b strong A\nvar s strong B\nvar u unowned A\nvar t unowned A\nvar w weak A\nvar x weak B\nvar z unowned B\n";

// the line and number of a text's refusal, or zeros
fn refusal(alloc: Global, text: &[u8]) -> Result<(u32, u32), AllocError>
    requires { length text.now ≤ 67108864 }
{
    match read_script(alloc, text) {
        Ok(_) => Ok((0, 0)),
        Err(ReadFault::Refused { line, why }) => Ok((line, why)),
        Err(ReadFault::Memory) => Err(AllocError),
    }
}

/// The refusal of a text, a line and what comes behind.
pub fn refusal_of_line(
    rt: &impl Abort,
    alloc: Global,
    before: &str,
    line: &str,
    behind: &str,
) -> Result<(u32, u32), Fail> {
    let mut text = Vec::new(alloc);
    text.extend_from_slice(before.as_bytes())?;
    text.extend_from_slice(line.as_bytes())?;
    text.extend_from_slice(behind.as_bytes())?;
    assert!(rt; text.len() <= 67_108_864);
    Ok(refusal(alloc, &text)?)
}

/// Each row's line stands behind the text, with this number.
pub fn check_rows(
    rt: &impl Abort,
    alloc: Global,
    before: &str,
    number: u32,
    behind: &str,
    rows: &[(&str, u32)],
) -> Result<(), Fail> {
    for (line, why) in rows {
        let found = refusal_of_line(rt, alloc, before, line, behind)?;
        let at = if *why == 0 { 0 } else { number };
        assert_eq!(rt; found, (at, *why), "at {line:?}");
    }
    Ok(())
}
