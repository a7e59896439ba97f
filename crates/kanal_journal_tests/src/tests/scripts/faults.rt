//! Devices that fail.
use crate::tests::scripts::devices::{BrokenReader, BrokenWriter};
use kanal_script::serve;
use std::alloc::Global;
use std::io::Read;
use std::test::Fail;

const SCRIPT: &[u8] = b"cap 1\ntry_send 1\ntry_recv\n";

const ANSWER: &[u8] = b"yes\ngot 1\n";

const FAULT: &[u8] = b"kanal-run: device fault\n";

fn writer(alloc: Global, bad_write: Option<u32>, bad_flush: Option<u32>) -> BrokenWriter {
    BrokenWriter {
        taken: Vec::new(alloc),
        writes: 0,
        flushes: 0,
        bad_write,
        bad_flush,
    }
}

/// What of the answer to an input that breaks off is not as it is wanted, empty if nothing is.
fn differing(alloc: Global, input: &[u8]) -> &'static str {
    let mut reader = BrokenReader::new(input);
    let mut output = Vec::new(alloc);
    let mut errors = Vec::new(alloc);
    let status = serve(alloc, &mut reader, &mut output, &mut errors);
    if status != 1 {
        "status"
    } else if !output.is_empty() {
        "output"
    } else if errors.as_slice() != FAULT {
        "errors"
    } else {
        ""
    }
}

/// A fault in the middle of the input, also after a line that can't be read.
#[test]
fn a_reader_fails(rt: HostRuntime) {
    let inputs: [&[u8]; 5] = [b"", b"cap 1\ntry_s", b"cap 1\n", b"x\n", b"cap 1\nx\ny\n"];
    for input in inputs {
        let differs = differing(rt.alloc(), input);
        assert!(rt; differs.is_empty(), "{differs} of {input:?}");
    }
}

/// Whether the script's answer fails at the writer, which has taken this much, and that is told.
fn is_told(alloc: Global, script: &[u8], output: &mut BrokenWriter, taken: &[u8]) -> bool {
    let mut errors = Vec::new(alloc);
    let mut bytes = script;
    let status = serve(alloc, &mut bytes, output, &mut errors);
    status == 1 && output.taken.as_slice() == taken && errors.as_slice() == FAULT
}

#[test]
fn the_first_write_or_the_flush_fails(rt: HostRuntime) {
    let mut output = writer(rt.alloc(), Some(0), None);
    assert!(rt; is_told(rt.alloc(), SCRIPT, &mut output, b""));
    let mut output = writer(rt.alloc(), None, Some(0));
    assert!(rt; is_told(rt.alloc(), SCRIPT, &mut output, ANSWER));
}

/// A script with a long answer, and that answer.
fn long(alloc: Global) -> Result<(Vec<u8>, Vec<u8>), Fail> {
    let mut script = Vec::from_slice(alloc, b"cap 0\n")?;
    let mut answer = Vec::new(alloc);
    for _ in 0..3000 {
        script.extend_from_slice(b"try_send 1234567890\n")?;
        answer.extend_from_slice(b"no 1234567890\n")?;
    }
    Ok((script, answer))
}

/// How many writes the whole answer takes, if it is this one and is flushed once.
fn whole(alloc: Global, script: &[u8], answer: &[u8]) -> Option<u32> {
    let mut output = writer(alloc, None, None);
    let mut errors = Vec::new(alloc);
    let mut bytes = script;
    let status = serve(alloc, &mut bytes, &mut output, &mut errors);
    let is_well = status == 0
        && output.taken.as_slice() == answer
        && output.flushes == 1
        && errors.is_empty();
    if is_well { Some(output.writes) } else { None }
}

/// Whether the write that fails leaves a beginning of the answer, is the last one, and is told.
fn is_beginning(alloc: Global, script: &[u8], answer: &[u8], turn: u32) -> bool {
    let mut output = writer(alloc, Some(turn), None);
    let mut errors = Vec::new(alloc);
    let mut bytes = script;
    let status = serve(alloc, &mut bytes, &mut output, &mut errors);
    status == 1
        && answer.starts_with(output.taken.as_slice())
        && output.taken.len() < answer.len()
        && output.writes == turn.saturating_add(1)
        && errors.as_slice() == FAULT
}

/// A long answer takes several writes. The one that fails leaves a beginning of the answer.
#[test]
fn a_later_write_fails(rt: HostRuntime) -> Result<(), Fail> {
    let alloc = rt.alloc();
    let (script, answer) = long(alloc)?;
    let writes = whole(alloc, script.as_slice(), answer.as_slice()).ok_or("the whole answer")?;
    assert!(rt; writes > 1);
    for turn in 0..writes {
        assert!(rt; is_beginning(alloc, script.as_slice(), answer.as_slice(), turn));
    }
    Ok(())
}

/// The status of the input, if nothing is written where what tells of a fault fails, too.
fn silent<I: Read>(alloc: Global, input: &mut I) -> Option<u8> {
    let mut errors = writer(alloc, Some(0), None);
    let mut output = Vec::new(alloc);
    let status = serve(alloc, input, &mut output, &mut errors);
    if output.is_empty() && errors.taken.is_empty() {
        Some(status)
    } else {
        None
    }
}

/// The status stays as it is if what tells of a fault fails, too.
#[test]
fn the_errors_writer_fails(rt: HostRuntime) {
    let mut bytes: &[u8] = b"cap 1\nx\n";
    assert!(rt; silent(rt.alloc(), &mut bytes) == Some(2));
    let mut reader = BrokenReader::new(SCRIPT);
    assert!(rt; silent(rt.alloc(), &mut reader) == Some(1));
}
