//! Inputs with a line that can't be read.
use kanal_script::serve;
use std::alloc::Global;
use std::test::Fail;

/// Each input, and the number of its first line that can't be read.
const INPUTS: &[(&[u8], u64)] = &[
    (b"", 1),
    (b"\n", 1),
    (b"x\n", 1),
    (b"try_recv\n", 1),
    (b"cap\n", 1),
    (b"cap \n", 1),
    (b"cap  1\n", 1),
    (b" cap 1\n", 1),
    (b"cap 1 \n", 1),
    (b"cap\t1\n", 1),
    (b"cap 1\r\n", 1),
    (b"cap 1 2\n", 1),
    (b"cap 01\n", 1),
    (b"cap 00\n", 1),
    (b"cap +1\n", 1),
    (b"cap -1\n", 1),
    (b"cap 1x\n", 1),
    (b"cap 18446744073709551616\n", 1),
    (b"cap 99999999999999999999999999\n", 1),
    (b"cap Unbounded\n", 1),
    (b"CAP 1\n", 1),
    (b"\n cap 1\n", 1),
    (b"cap 1\n\n", 2),
    (b"cap 1\ncap 1\n", 2),
    (b"cap 1\nsend x\n", 2),
    (b"cap 1\nsend\n", 2),
    (b"cap 1\nsend \n", 2),
    (b"cap 1\nsend 1 2\n", 2),
    (b"cap 1\nsend 01\n", 2),
    (b"cap 1\nsend 18446744073709551616\n", 2),
    (b"cap 1\nRecv\n", 2),
    (b"cap 1\nrecv 1\n", 2),
    (b"cap 1\nrecv_late 1\n", 2),
    (b"cap 1\nrecv_\n", 2),
    (b"cap 1\nwithdraw\n", 2),
    (b"cap 1\nwithdraw x\n", 2),
    (b"cap 1\nwithdraw -1\n", 2),
    (b"cap 1\nwithdraw 18446744073709551616\n", 2),
    (b"cap 1\nrecv\ndrain 1\n", 3),
    (b"cap 1\nsend 1\nclone\n", 3),
    (b"cap 1\nwithdraw 0\nterminate\n", 3),
    (b"cap 1\nrecv_late\nask tx full\n", 3),
    (b"cap 1\ntry_send\n", 2),
    (b"cap 1\ntry_send 01\n", 2),
    (b"cap 1\ntry_send 18446744073709551616\n", 2),
    (b"cap 1\ntry_send 1 1\n", 2),
    (b"cap 1\ntry_recv \n", 2),
    (b"cap 1\n try_recv\n", 2),
    (b"cap 1\nTry_recv\n", 2),
    (b"cap 1\ntry_recv\x00\n", 2),
    (b"cap 1\ntry_recv\n\ntry_recv\n", 3),
    (b"cap 1\ntry_recv\nask  tx len\n", 3),
    (b"cap 1\ntry_recv\nask tx\n", 3),
    (b"cap 1\ntry_recv\nask tx \n", 3),
    (b"cap 1\ntry_recv\nask ty len\n", 3),
    (b"cap 1\ntry_recv\n\xff\nx\n", 3),
    (b"cap 1\ntry_recv\ntry_send \xc3\xa9\n", 3),
    (b"cap 18446744073709551615\nsend x\n", 2),
];

/// What of the answer to the input is not as it is wanted, where this line is the first that can't be
/// read; empty if nothing is.
fn differing(alloc: Global, input: &[u8], line: u64) -> Result<&'static str, Fail> {
    let text = format!(in alloc; "kanal-run: line {line}: unreadable\n")?;
    let mut output = Vec::new(alloc);
    let mut errors = Vec::new(alloc);
    let mut bytes = input;
    let status = serve(alloc, &mut bytes, &mut output, &mut errors);
    if status != 2 {
        Ok("status")
    } else if !output.is_empty() {
        Ok("output")
    } else if errors.as_slice() != text.as_bytes() {
        Ok("errors")
    } else {
        Ok("")
    }
}

#[test]
fn tells_the_first_line(rt: HostRuntime) -> Result<(), Fail> {
    for (input, line) in INPUTS {
        let differs = differing(rt.alloc(), input, *line)?;
        assert!(rt; differs.is_empty(), "{differs} of {input:?}");
    }
    Ok(())
}
