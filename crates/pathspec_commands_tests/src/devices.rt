//! Devices that fail.
use crate::running::run_words;
use pathspec_commands::Failure;
use pathspec_test_devices::{ALL, Answer, Script, ScriptedReader, ScriptedWriter};
use std::io::ErrorKind;
use std::test::Fail;

const BROKEN: Answer = Err(ErrorKind::BrokenPipe);

#[test]
#[rattlefmt::skip]
fn a_writer_that_fails_ends_a_command(rt: HostRuntime) -> Result<(), Fail> {
    // The words of a command, and what the writer answers first.
    const ROWS: &[(&[&str], &[Answer], bool)] = &[
        (&["filter"], &[BROKEN], true),
        (&["filter", "-c"], &[BROKEN], true),
        (&["filter"], &[Ok(1), BROKEN], true),
        (&["explain"], &[BROKEN], true),
        (&["show", "a"], &[BROKEN], true),
        (&["filter", "-q"], &[BROKEN], false),
        (&["filter", "b"], &[BROKEN], false),
    ];
    for (number, (words, answers, fails)) in ROWS.iter().enumerate() {
        let mut reader = b"a\n".as_slice();
        let mut writer = ScriptedWriter::new(rt.alloc(), Script::new(answers, ALL));
        let mut told = Vec::new(rt.alloc());
        let ended = run_words(&rt, words, &mut reader, &mut writer, &mut told);
        assert!(rt; matches!(ended, Err(Failure::Output)) == *fails, "{number}");
    }
    Ok(())
}

#[test]
fn a_reader_that_fails_is_told(rt: HostRuntime) -> Result<(), Fail> {
    for words in [["filter"], ["explain"]] {
        let mut reader = ScriptedReader::new(b"a\nb\n", Script::new(&[Ok(2)], BROKEN));
        let mut written = Vec::new(rt.alloc());
        let mut told = Vec::new(rt.alloc());
        let ended = run_words(&rt, &words, &mut reader, &mut written, &mut told);
        assert!(rt; matches!(ended, Err(Failure::Told(_))));
    }
    Ok(())
}
