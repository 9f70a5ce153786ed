//! Tests of the commands, from bytes to bytes.

use crate::calls::arc_plain_top;
use crate::status::Status;
use arc_command::Arg;
use arc_io::{MemSink, MemSource};
use std::alloc::Global;
use std::process::ExitCode;
use std::test::*;

const USAGE: &[u8] = b"usage: arc run, replay, check, script COUNT START, storm COUNT START\n";

const A_COPY: &[u8] =
    b"arc 1\nslots 1\nentries 1\nclass Node\nthread 1\nvar a strong Node\nvar b strong Node\nnew a Node\ncopy b a\ndrop a\ndrop b\ndone\n";

const A_COPY_REPLAYED: &[u8] = b"report 1
thread 1
1 new Node#1.1
2 ok
3 ok
4 ok
4 deinit Node#1.1
end
objects 1 deinits 1 leaks 0
history 1
slots 1
entries 1
caps 1073741823 2147483647 4294967295
class Node
threads 1
events
2 1 new 1 Node 0
6 1 copy 1 2
8 1 drop 1 more
10 1 drop 2 last
15 1 finish 0 last
16 1 vacate 0
done
";

/// Both threads want the only slot. By the places thread 1 looks for it and takes it, then thread 2 finds it taken, then thread 1 writes
/// the object's counts; what is left is made in the order of numbers.
const TWO_THREADS: &[u8] =
    b"arc 1\nslots 1\nentries 1\nclass Node\nthread 1\nvar a strong Node\nnew a Node\ndrop a\nthread 2\nvar b strong Node\nnew b Node\nschedule 1 1 2 1\ndone\n";

const TWO_THREADS_REPLAYED: &[u8] = b"report 1
thread 1
1 new Node#1.1
2 ok
2 deinit Node#1.1
thread 2
1 full
end
objects 1 deinits 1 leaks 0
history 1
slots 1
entries 1
caps 1073741823 2147483647 4294967295
class Node
threads 2
events
2 1 new 1 Node 0
3 2 full
7 1 drop 1 last
12 1 finish 0 last
13 1 vacate 0
done
";

/// Thread 1 runs the block that finds its variable nil, and in it the one that then finds it isn't. Thread 2 finds no slot free in its first
/// phase, since thread 1 took the only one in two places, and so skips its drop; in its second phase it makes its object.
const BLOCKS: &[u8] =
    b"arc 2\nslots 1\nentries 1\nclass Node\nthread 1\nvar a strong Node\nifnil a\nnew a Node\nifsome a\ndrop a\nend\nend\nphase\nthread 2\nvar b strong Node\nnew b Node\nifsome b\ndrop b\nend\nphase\nifnil b\nnew b Node\nend\nschedule 1 1 2\ndone\n";

const BLOCKS_REPLAYED: &[u8] = b"report 1
thread 1
1 new Node#1.1
2 ok
2 deinit Node#1.1
thread 2
1 full
3 new Node#2.1
end deinit Node#2.1
end
objects 2 deinits 2 leaks 0
history 2
slots 1
entries 1
caps 1073741823 2147483647 4294967295
class Node
threads 2
events
2 1 new 1 Node 0
3 2 full
7 1 drop 1 last
12 1 finish 0 last
13 1 vacate 0
15 2 new 1 Node 0
19 2 drop 1 last
24 2 finish 0 last
25 2 vacate 0
done
";

/// Thread 1 puts its node into a global. In the second phase thread 2 finds the global accessed by thread 1, copies it when that is over, and puts
/// its copy there; the end section clears it.
const GLOBALS: &[u8] =
    b"arc 1\nslots 1\nentries 1\nclass Node\nglobal shared strong Node\nthread 1\nvar node strong Node\nvar seen strong Node\nnew node Node\nset @shared node\nphase\nget seen @shared\nthread 2\nvar copy strong Node\nphase\nget copy @shared\nset @shared copy\nschedule 1 1 1 1 1 1 1 1 2 2\ndone\n";

const GLOBALS_REPLAYED: &[u8] = b"report 1
thread 1
1 new Node#1.1
2 ok
3 ok
thread 2
1 ok
2 ok
end
deinit Node#1.1
objects 1 deinits 1 leaks 0
history 1
slots 1
entries 1
caps 1073741823 2147483647 4294967295
class Node
global shared strong Node
threads 2
events
2 1 new 1 Node 0
6 1 swap @shared 1 nil
12 1 copy @shared 2
15 1 drop 2 more
19 2 copy @shared 1
22 2 swap @shared 1 2
24 2 drop 2 more
26 0 swap @shared nil 1
28 0 drop 1 last
33 0 finish 0 last
34 0 vacate 0
done
";

const NEVER_THERE: &[u8] =
    b"history 1\nslots 1\nentries 1\ncaps 1 2 3\nclass Node\nthreads 1\nevents\n1 1 new 1 Node 0\n2 1 vacate 0\ndone\n";

/// What a call with these words and this input ends with, and what it wrote, where one read and one write fail. The reads give 4
/// bytes each, and the writes take 10.
fn call(
    alloc: Global,
    line: &[u8],
    input: &[u8],
    fails: (u32, u32),
) -> Result<(ExitCode, Vec<u8>), Fail> {
    let mut words = Vec::new(alloc);
    for word in line.split(|b| *b == b' ') {
        words.push(Arg::of(word))?;
    }
    let mut source = MemSource::new(input.to_vec(alloc)?, vec![in alloc; fails.0]?, 4);
    let mut sink = MemSink::make(alloc, 100_000, vec![in alloc; fails.1]?, 10)
        .ok()
        .ok_or("no memory")?;
    let code = arc_plain_top(alloc, &words, &mut source, &mut sink);
    Ok((code, sink.taken().to_vec(alloc)?))
}

#[test]
fn each_command_and_each_fault_of_the_outside(rt: HostRuntime) -> Result<(), Fail> {
    let alloc = rt.alloc();
    let unserved =
        b"arc 1\nslots 1\nentries 1\nclass Node\nthread 1\nvar a weak Node\ndone\n".as_slice();
    let none = (0, 0);
    for (line, input, fails, status, want) in [
        (
            b"replay".as_slice(),
            A_COPY,
            none,
            Status::Done,
            A_COPY_REPLAYED,
        ),
        (
            b"replay",
            TWO_THREADS,
            none,
            Status::Done,
            TWO_THREADS_REPLAYED,
        ),
        (b"replay", BLOCKS, none, Status::Done, BLOCKS_REPLAYED),
        (b"replay", GLOBALS, none, Status::Done, GLOBALS_REPLAYED),
        (
            b"check",
            TWO_THREADS_REPLAYED,
            none,
            Status::Done,
            b"legal 5\n",
        ),
        (b"check", BLOCKS_REPLAYED, none, Status::Done, b"legal 9\n"),
        (
            b"check",
            GLOBALS_REPLAYED,
            none,
            Status::Done,
            b"legal 11\n",
        ),
        (
            b"check",
            NEVER_THERE,
            none,
            Status::NotLegal,
            b"illegal line 9 reason 6\n",
        ),
        (b"replay x", A_COPY, none, Status::Usage, USAGE),
        (
            b"replay",
            A_COPY,
            (3, 0),
            Status::ReadFault,
            b"read fault\n",
        ),
        (
            b"replay",
            A_COPY,
            (0, 2),
            Status::WriteFault,
            b"report 1\nt",
        ),
        (
            b"replay",
            unserved,
            none,
            Status::Refused,
            b"refused line 0 reason 0\n",
        ),
    ] {
        let (code, written) = call(alloc, line, input, fails)?;
        assert_eq!(rt; code, status.code());
        assert_eq!(rt; written.as_slice(), want);
    }
    Ok(())
}

#[test]
fn a_generated_script_is_written_whole(rt: HostRuntime) -> Result<(), Fail> {
    let (code, text) = call(rt.alloc(), b"script 16 7", b"", (1, 0))?;
    assert_eq!(rt; code, Status::Done.code());
    assert!(rt; text.starts_with(b"arc 1\nslots 4096\nentries 4096\ncaps 1073741823 "));
    Ok(())
}
