//! Scripts with their answers.
use kanal_script::serve;
use std::alloc::Global;
use std::test::Fail;

/// Each script, what it prints, and the status. A semicolon and a space stand for a line feed.
const ROWS: &[(&str, &str, u8)] = &[
    (
        "cap 1; try_send 1; try_send 2; try_recv; close",
        "yes; no 2; got 1; cleared 0",
        0,
    ),
    (
        "cap 2; try_send 1; try_send 2; try_send 3; try_recv; try_send 3; try_recv; try_recv; try_recv",
        "yes; yes; no 3; got 1; yes; got 2; got 3; nothing",
        0,
    ),
    (
        "cap 0; try_send 5; try_recv; ask tx len",
        "no 5; nothing; 0",
        0,
    ),
    (
        "cap 1; try_send 1; close; close; try_recv; try_send 2; ask tx len",
        "yes; cleared 1 1; refused CloseError; refused Closed; refused Closed 2; 0",
        0,
    ),
    ("cap 18446744073709551615", "refused TooLarge", 0),
    (
        "cap 18446744073709551615; try_send 1",
        "refused TooLarge",
        0,
    ),
    ("cap 3", "", 0),
    (
        "cap unbounded; try_send 18446744073709551615; try_send 0; ask rx len; close",
        "yes; yes; 2; cleared 2 18446744073709551615 0",
        0,
    ),
    (
        "cap unbounded; send 1; send 2; ask tx len; recv; recv; recv; withdraw 0",
        "sent; sent; 2; got 1; got 2; waits 0; withdrawn",
        0,
    ),
    (
        "cap 0; send 5; recv_late; recv_late",
        "waits 0; got 5; ticket 0 taken; refused Timeout",
        0,
    ),
    (
        "cap 0; send 1; send 2; close",
        "waits 0; waits 1; cleared 0; ticket 0 ended Closed 1; ticket 1 ended Closed 2",
        0,
    ),
    (
        "cap 1; send 1; send 2; try_recv; ask rx len",
        "sent; waits 0; got 1; ticket 0 taken; 1",
        0,
    ),
    (
        "cap 0; send 1; send 2; withdraw 0; try_recv; try_recv",
        "waits 0; waits 1; withdrawn 1; got 2; ticket 1 taken; nothing",
        0,
    ),
    (
        "cap 0; recv; recv; try_send 7; withdraw 0; withdraw 1; try_send 8",
        "waits 0; waits 1; yes; ticket 0 given 7; refused NotWaiting; withdrawn; no 8",
        0,
    ),
    (
        "cap 0; send 1; send 2; send 3; withdraw 1; send 4; withdraw 1; withdraw 3; drain",
        "waits 0; waits 1; waits 2; withdrawn 2; waits 3; refused NotWaiting; withdrawn 4; drained 2 1 3; ticket 0 taken; ticket 2 taken",
        0,
    ),
    (
        "cap 0; send 1; send 2; drain; drain",
        "waits 0; waits 1; drained 2 1 2; ticket 0 taken; ticket 1 taken; drained 0",
        0,
    ),
    (
        "cap 1; clone_tx; drop_tx; ask rx sender_count; drop_tx; drop_tx; close; drop_rx; close",
        "done; done; 1; done; refused NoHandle; cleared 0; done; refused NoHandle",
        0,
    ),
    (
        "cap 2; send 1; send 2; send 3; send 4; withdraw 0; drain; ask rx len",
        "sent; sent; waits 0; waits 1; withdrawn 3; drained 3 1 2 4; ticket 1 taken; 0",
        0,
    ),
    (
        "cap 1; send 1; drop_tx; recv; recv; drain; recv_late; terminated",
        "sent; done; got 1; refused SendClosed; drained 0; refused Timeout; true",
        0,
    ),
    (
        "cap 1; try_send 1; close; close; recv; drain; send 2; clone_tx; ask tx sender_count",
        "yes; cleared 1 1; refused CloseError; refused Closed; refused Closed; refused Closed 2; done; 0",
        0,
    ),
    (
        "cap 1; recv; drop_tx",
        "waits 0; done; ticket 0 ended SendClosed",
        0,
    ),
    (
        "cap 0; send 1; drop_rx; send 2; recv",
        "waits 0; done; ticket 0 ended ReceiveClosed 1; refused ReceiveClosed 2; refused NoHandle",
        0,
    ),
    ("cap 0; ask rx is_full; ask rx is_empty", "true; true", 0),
    (
        "cap unbounded; ask tx is_full; ask tx is_bounded; ask tx capacity",
        "false; false; 18446744073709551615",
        0,
    ),
    (
        "cap 1; try_send 1; drop_rx; ask tx len; close; ask tx len",
        "yes; done; 1; cleared 1 1; 0",
        0,
    ),
    (
        "cap 0; send 1; drop_tx; try_recv",
        "waits 0; done; ticket 0 ended SendClosed 1; refused SendClosed",
        0,
    ),
    (
        "cap 1; send 1; send 2; seal; send 3; recv; recv; recv; seal; close",
        "sent; waits 0; done; refused Sealed 3; got 1; ticket 0 taken; got 2; refused SendClosed; refused CloseError; cleared 0",
        0,
    ),
    (
        "cap 0; recv; seal; drop_tx; try_recv",
        "waits 0; done; ticket 0 ended SendClosed; done; refused SendClosed",
        0,
    ),
    (
        "cap 0; send 1; seal; terminated; drop_tx; try_recv; terminated",
        "waits 0; done; false; done; got 1; ticket 0 taken; true",
        0,
    ),
    (
        "cap 1; try_send 1; send 2; seal; close; ask tx len",
        "yes; waits 0; done; cleared 1 1; ticket 0 ended Closed 2; 0",
        0,
    ),
    (
        "cap 1; send 1; seal; drop_rx; send 2; close",
        "sent; done; done; refused Closed 2; refused CloseError",
        0,
    ),
    (
        "cap 0; send 1; seal; withdraw 0; recv",
        "waits 0; done; withdrawn 1; refused SendClosed",
        0,
    ),
    ("", "", 2),
    ("cap 1; send x", "", 2),
];

/// The lines that a row writes in short.
fn lines(alloc: Global, short: &str) -> Result<String, Fail> {
    let mut text = String::new(alloc);
    for line in short.split(';') {
        if !line.is_empty() {
            text.push_str(line.strip_prefix(" ").unwrap_or(line))?;
            text.push('\n')?;
        }
    }
    Ok(text)
}

/// What of the answer to the script is not as it is wanted, empty if nothing is.
fn differing(alloc: Global, script: &[u8], answer: &[u8], wanted: u8) -> &'static str {
    let mut output = Vec::new(alloc);
    let mut errors = Vec::new(alloc);
    let mut bytes = script;
    let status = serve(alloc, &mut bytes, &mut output, &mut errors);
    if status != wanted {
        "status"
    } else if output.as_slice() != answer {
        "output"
    } else if errors.is_empty() != (wanted == 0) {
        "errors"
    } else {
        ""
    }
}

/// What differs in a row, with the last line feed or without it.
fn differing_row(
    alloc: Global,
    row: (&str, &str, u8),
    has_last_feed: bool,
) -> Result<&'static str, Fail> {
    let (script, answer, wanted) = row;
    let input = lines(alloc, script)?;
    let answer = lines(alloc, answer)?;
    if has_last_feed {
        Ok(differing(alloc, input.as_bytes(), answer.as_bytes(), wanted))
    } else {
        let (_, front) = input.as_bytes().split_last().unwrap_or((&0, b""));
        Ok(differing(alloc, front, answer.as_bytes(), wanted))
    }
}

/// The last line feed may be left out, so each row is read with it and without.
#[test]
fn rows(rt: HostRuntime) -> Result<(), Fail> {
    for row in ROWS {
        let differs = differing_row(rt.alloc(), *row, true)?;
        assert!(rt; differs.is_empty(), "{differs} of {}", row.0);
        let differs = differing_row(rt.alloc(), *row, false)?;
        assert!(rt;
            differs.is_empty(),
            "{differs} of {} with no last feed",
            row.0
        );
    }
    Ok(())
}
