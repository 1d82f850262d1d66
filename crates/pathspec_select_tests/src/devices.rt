//! Runs of the program over readers, writers and look-ups that fail, or take one byte a call.
use crate::asked::{UNSET, environment_of, job_of, words_of};
use crate::runs::{add_end, writes_for};
use pathspec_parts::attributes::LookUp;
use pathspec_select::{Job, run, run_with};
use pathspec_test_devices::{ALL, Answer, Script, ScriptedReader, ScriptedWriter};
use pathspec_test_support::look_ups::Marks;
use std::alloc::{AllocError, Global};
use std::io::{ErrorKind, Write};
use std::test::Fail;

/// The words of a run whose input has the specs in front.
const FIRST: &str = "--specs-first f";

/// Whether a run with the words of a line reads its input so often by a script, and writes this or is told it.
fn reads(
    alloc: Global,
    (line, input): (&str, &[u8]),
    script: Script<'_>,
    calls: usize,
    want: &[u8],
) -> Result<bool, Fail> {
    let words = words_of(alloc, line)?;
    let mut reader = ScriptedReader::new(input, script);
    let is_written = writes_for(alloc, &words, UNSET, &mut reader, want)?;
    Ok(is_written && reader.script.calls == calls)
}

#[test]
#[rattlefmt::skip]
fn no_read_is_made_again_nor_after_the_end(rt: HostRuntime) -> Result<(), Fail> {
    const READ: &[u8] = b"status 5: read";
    const INPUT: (&str, &[u8]) = ("", b"a\nb\n");
    const BROKEN: Answer = Err(ErrorKind::BrokenPipe);
    const INTERRUPTED: Answer = Err(ErrorKind::Interrupted);
    const TIMED_OUT: Answer = Err(ErrorKind::TimedOut);
    // How many bytes a reader gives a call, how often it is read, and what is written or told.
    const ROWS: &[(&[Answer], usize, &[u8])] = &[
        (&[BROKEN], 1, READ),
        (&[Ok(2), BROKEN], 2, READ),
        (&[Ok(2), INTERRUPTED], 2, READ),
        (&[Ok(2), TIMED_OUT], 2, READ),
        (&[Ok(2), Ok(0)], 2, b"a\n"),
        (&[Ok(2), Ok(0), BROKEN], 2, b"a\n"),
        (&[Ok(0), INTERRUPTED], 1, b""),
    ];
    for (number, (answers, calls, want)) in ROWS.iter().enumerate() {
        let script = Script::new(answers, ALL);
        assert!(rt; reads(rt.alloc(), INPUT, script, *calls, want)?, "{number}");
    }
    Ok(())
}

/// A script of one byte a call.
const ONES: &[Answer] = &[Ok(1); 9];

/// Whether a run is refused by a reader that gives one byte a call and fails at its first call, its second, and so on, up to
/// the one behind its last byte.
fn is_unread(alloc: Global, run: (&str, &[u8]), fault: ErrorKind) -> Result<bool, Fail> {
    for count in 0..=run.1.len().min(ONES.len()) {
        let script = Script::new(&ONES[..count], Err(fault));
        let calls = count.saturating_add(1);
        if !reads(alloc, run, script, calls, b"status 5: read")? {
            return Ok(false);
        }
    }
    Ok(true)
}

// A read fails before, at and after the line `--`, and where a spec or a record is at fault.
#[test]
fn a_failed_read_is_refused(rt: HostRuntime) -> Result<(), Fail> {
    for fault in [
        ErrorKind::BrokenPipe,
        ErrorKind::Interrupted,
        ErrorKind::TimedOut,
    ] {
        assert!(rt; is_unread(rt.alloc(), ("", b"a\n/\nb\n"), fault)?);
    }
    assert!(rt; is_unread(rt.alloc(), (FIRST, b"a\n--\na\n"), ErrorKind::BrokenPipe)?);
    assert!(rt; is_unread(rt.alloc(), (FIRST, b":#\n--\n/\n"), ErrorKind::BrokenPipe)?);
    Ok(())
}

/// Whether a run with the words of a line is told just this, or, for "", isn't refused.
fn ends<W: Write>(
    alloc: Global,
    (line, input): (&str, &[u8]),
    writer: &mut W,
    want: &str,
) -> Result<bool, AllocError> {
    let mut text = Vec::new(alloc);
    let words = words_of(alloc, line)?;
    let environment = environment_of(alloc, UNSET)?;
    let mut reader = input;
    let ended = run(alloc, &words, &environment, &mut reader, writer);
    add_end(alloc, &mut text, ended)?;
    Ok(text.as_slice() == want.as_bytes())
}

/// A writer's script, as its answers and the last one, and the end of a run over it: the count of calls, the bytes taken, and
/// the refusal, "" for none. The writer is never flushed.
type Accepted<'a> = (&'a [Answer], Answer, usize, &'a [u8], &'a str);

/// Whether a run over a writer has a given end.
fn is_accepted(
    alloc: Global,
    run: (&str, &[u8]),
    (answers, last, calls, taken, want): Accepted<'_>,
) -> Result<bool, Fail> {
    let mut writer = ScriptedWriter::new(alloc, Script::new(answers, last));
    let is_told = ends(alloc, run, &mut writer, want)?;
    let is_called = writer.script.calls == calls && writer.flushes == 0;
    Ok(is_told && is_called && writer.taken.as_slice() == taken)
}

const WRITE: &str = "status 5: write";

#[test]
#[rattlefmt::skip]
fn no_write_is_made_again_and_none_flushed(rt: HostRuntime) -> Result<(), Fail> {
    const BROKEN: Answer = Err(ErrorKind::BrokenPipe);
    const INTERRUPTED: Answer = Err(ErrorKind::Interrupted);
    const TIMED_OUT: Answer = Err(ErrorKind::TimedOut);
    const LISTING: (&str, &[u8]) = ("", b"a\nb\n");
    const ROWS: &[((&str, &[u8]), Accepted<'_>)] = &[
        (LISTING, (&[], ALL, 1, b"a\nb\n", "")),
        (LISTING, (&[Ok(3), Ok(9)], ALL, 2, b"a\nb\n", "")),
        (LISTING, (&[BROKEN], ALL, 1, b"", WRITE)),
        (LISTING, (&[INTERRUPTED], ALL, 1, b"", WRITE)),
        (LISTING, (&[Ok(2), BROKEN], ALL, 2, b"a\n", WRITE)),
        (LISTING, (&[Ok(1), Ok(1), BROKEN], ALL, 3, b"a\n", WRITE)),
        (LISTING, (&[Ok(3), INTERRUPTED], ALL, 2, b"a\nb", WRITE)),
        (LISTING, (&[Ok(3), TIMED_OUT], ALL, 2, b"a\nb", WRITE)),
        (LISTING, (&[Ok(2), Ok(0)], ALL, 2, b"a\n", WRITE)),
        // A failed write is refused last.
        ((FIRST, b"a\n--\na\n"), (&[], Ok(0), 1, b"", WRITE)),
        ((FIRST, b"a\n--\na\n/\n"), (&[], Ok(0), 0, b"", "status 4: line 2")),
        ((FIRST, b"\n--\na\n"), (&[], Ok(0), 0, b"", "status 3: spec 0: Empty")),
        ((FIRST, b"a\na\n"), (&[], Ok(0), 0, b"", "status 4: specs")),
    ];
    for (number, (run, accepted)) in ROWS.iter().enumerate() {
        assert!(rt; is_accepted(rt.alloc(), *run, *accepted)?, "{number}");
    }
    Ok(())
}

/// Whether a writer that takes one byte a call has taken a front of the output, where it fails at its first call, at its
/// second, and so on, up to none.
fn is_front(alloc: Global, last: Answer) -> Result<bool, Fail> {
    const LISTING: &[u8] = b"a\nb/\nb/c\n";
    for count in 0..=LISTING.len() {
        let (ones, taken) = (&ONES[..count], &LISTING[..count]);
        let (calls, refusal) = if count < LISTING.len() {
            (count + 1, WRITE)
        } else {
            (count, "")
        };
        if !is_accepted(alloc, ("", LISTING), (ones, last, calls, taken, refusal))? {
            return Ok(false);
        }
    }
    Ok(true)
}

#[test]
fn what_is_written_before_a_fault_is_a_front(rt: HostRuntime) -> Result<(), Fail> {
    assert!(rt; is_front(rt.alloc(), Ok(0))? && is_front(rt.alloc(), Err(ErrorKind::BrokenPipe))?);
    assert!(rt; is_front(rt.alloc(), Err(ErrorKind::Interrupted))?);
    Ok(())
}

/// Whether a job with a look-up writes just this, or is told just this where it is refused and writes nothing.
fn does<L: LookUp<Fault = AllocError>>(
    alloc: Global,
    job: &Job,
    input: &[u8],
    look_up: &mut L,
    want: &[u8],
) -> Result<bool, AllocError> {
    let mut reader = input;
    let mut written = Vec::new(alloc);
    let ended = run_with(alloc, job, &mut reader, &mut written, look_up);
    add_end(alloc, &mut written, ended)?;
    Ok(written.as_slice() == want)
}

// Of `a`, `a/b`, `c` and `c/d` the first two.
#[test]
fn what_cannot_be_chosen_is_not_asked_about(rt: HostRuntime) -> Result<(), Fail> {
    let (job, _) = job_of(rt.alloc(), "a/b b/c :(exclude,attr:g).", UNSET)??;
    let mut marks = Marks::new();
    assert!(rt; does(rt.alloc(), &job, b"a/b\nc/d\n", &mut marks, b"a/b\n")? && marks.asked == 2);
    Ok(())
}

/// Inputs, and what a job writes for one after another, or is told.
type Runs<'a> = &'a [(&'a [u8], &'a [u8])];

/// Whether a job writes just this for inputs, by a look-up that fails once after so many answers, if it fails.
fn does_each(alloc: Global, line: &str, left: u64, runs: Runs<'_>) -> Result<bool, Fail> {
    let mut marks = Marks::failing_after(left);
    let (job, _) = job_of(alloc, line, UNSET)??;
    for (input, want) in runs {
        if !does(alloc, &job, input, &mut marks, want)? {
            return Ok(false);
        }
    }
    Ok(marks.failed == u64::from(left < u64::MAX))
}

#[test]
fn a_failed_look_up_is_refused_and_leaves_the_job(rt: HostRuntime) -> Result<(), Fail> {
    const LISTING: &[u8] = b"x\na/b\n";
    const INPUT: &[u8] = b":(attr:gen).\n--\nx\nb\n";
    const MEMORY: &[u8] = b"status 6: memory";
    // The look-up fails at one of the three questions of a run, or of the two.
    for left in 0..3 {
        assert!(rt;
            does_each(
                rt.alloc(),
                ":(attr:gen).",
                left,
                &[(LISTING, MEMORY), (LISTING, b"x\n")]
            )?
        );
    }
    for left in 0..2 {
        assert!(rt; does_each(rt.alloc(), FIRST, left, &[(INPUT, MEMORY), (INPUT, b"x\n")])?);
    }
    Ok(())
}

#[test]
fn each_run_reads_the_specs_of_its_own_input(rt: HostRuntime) -> Result<(), Fail> {
    const RUNS: Runs<'_> = &[
        (b"a\n--\na\nb\n", b"a\n"),
        (b":#\n--\n", b"status 3: spec 0: UnimplementedShort"),
        (b"b\n--\na\nb\n", b"b\n"),
    ];
    assert!(rt; does_each(rt.alloc(), FIRST, u64::MAX, RUNS)?);
    Ok(())
}
