//! The lines that operations answer with.

ghost use Rattle.std.specs.Prelude.{◌≡◌, ◌++◌, length, OnOk};
ghost use Rattle.std.specs.String.{string_bytes};
ghost use Rattle.std.specs.List.{flat_map};
ghost use Rattle.arc_script.specs.Valid.{class_names};
ghost use Rattle.arc_report.specs.Lines.{answer_line, line_text, thread_text, end_line_text, end_text, AnswerHasClass, LinesHaveClasses, ThreadsHaveClasses};

use crate::names::object_in;
use arc_ops::ThreadLines;
use arc_script::{Answer, ClassDecl, Line};
use std::alloc::AllocError;

/// The answer, at the end of its line.
fn put_answer(out: &mut String, classes: &[ClassDecl], answer: Answer) -> Result<(), AllocError>
    requires { AnswerHasClass (length classes.now) answer }
    ensures { OnOk result (string_bytes out.new ≡ string_bytes out.old ++ answer_line (class_names classes.now) answer) }
{
    match answer {
        Answer::New(name) => {
            let object = object_in(classes, name);
            writeln!(out, "new {object}")
        }
        Answer::Full => writeln!(out, "full"),
        Answer::Got(name) => {
            let object = object_in(classes, name);
            writeln!(out, "got {object}")
        }
        Answer::Ok => writeln!(out, "ok"),
        Answer::Nil => writeln!(out, "nil"),
        Answer::Dead => writeln!(out, "dead"),
        Answer::NoEntry => writeln!(out, "noentry"),
        Answer::CountFull => writeln!(out, "countfull"),
        Answer::Deinit(name) => {
            let object = object_in(classes, name);
            writeln!(out, "deinit {object}")
        }
    }
}

fn put_line(out: &mut String, classes: &[ClassDecl], line: Line) -> Result<(), AllocError>
    requires { AnswerHasClass (length classes.now) line.answer }
    ensures { OnOk result (string_bytes out.new ≡ string_bytes out.old ++ line_text (class_names classes.now) line) }
{
    let operation = line.operation;
    if operation == 0 {
        write!(out, "end ")?;
    } else {
        write!(out, "{operation} ")?;
    }
    put_answer(out, classes, line.answer)
}

fn put_thread(
    out: &mut String,
    classes: &[ClassDecl],
    thread: &ThreadLines,
) -> Result<(), AllocError>
    requires { LinesHaveClasses (length classes.now) thread.now.lines }
    ensures { OnOk result (string_bytes out.new ≡ string_bytes out.old ++ thread_text (class_names classes.now) thread.now) }
{
    let number = thread.thread;
    writeln!(out, "thread {number}")?;
    for line in thread.lines.as_slice() {
        put_line(out, classes, *line)?;
    }
    Ok(())
}

pub(crate) fn put_threads(
    out: &mut String,
    classes: &[ClassDecl],
    threads: &[ThreadLines],
) -> Result<(), AllocError>
    requires { ThreadsHaveClasses (length classes.now) threads.now }
    ensures { OnOk result (string_bytes out.new ≡ string_bytes out.old ++ flat_map (thread_text (class_names classes.now)) threads.now) }
{
    for thread in threads {
        put_thread(out, classes, thread)?;
    }
    Ok(())
}

pub(crate) fn put_end(
    out: &mut String,
    classes: &[ClassDecl],
    lines: &[Line],
) -> Result<(), AllocError>
    requires { LinesHaveClasses (length classes.now) lines.now }
    ensures { OnOk result (string_bytes out.new ≡ string_bytes out.old ++ end_text (class_names classes.now) lines.now) }
{
    writeln!(out, "end")?;
    for line in lines {
        put_answer(out, classes, line.answer)?;
    }
    Ok(())
}
