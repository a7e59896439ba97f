//! Histories of which nothing is drawn, each with what is told of it.
use crate::draw;
use crate::fault::Failure;
use std::alloc::Global;
use std::test::Fail;

/// Inputs that can't be drawn, and what is told of each.
const INPUTS: &[(&[u8], &str)] = &[
    (b"", "kanal_draw: line 1: no `cap N` and no `cap unbounded`"),
    (
        b"0 try_send 7\n",
        "kanal_draw: line 1: no `cap N` and no `cap unbounded`",
    ),
    (
        b"cap 18446744073709551615\n0 try_recv\n",
        "kanal_draw: line 1: the capacity is too large",
    ),
    (
        b"cap 2\ntry_send 7\n",
        "kanal_draw: line 2: no party below 32 with a space behind it",
    ),
    (
        b"cap 2\n0 try_send 7\n32 try_recv\n",
        "kanal_draw: line 3: no party below 32 with a space behind it",
    ),
    (
        b"cap 2\n\n0 try_recv\n",
        "kanal_draw: line 2: no party below 32 with a space behind it",
    ),
    (
        b"cap 2\n0  try_recv\n",
        "kanal_draw: line 2: no event behind the party",
    ),
    (
        b"cap 2\n0 try_send 7\n1 receive\nx\n",
        "kanal_draw: line 3: no event behind the party",
    ),
    (
        b"cap 2\n0 try_send 7\n1 try_recv\xff\n",
        "kanal_draw: line 3: not UTF-8",
    ),
];

/// Why nothing is drawn of these bytes, if nothing is.
fn fault_of(alloc: Global, bytes: &[u8]) -> Option<Failure> {
    draw(alloc, bytes).err()
}

#[test]
fn tells_the_line_and_why(rt: HostRuntime) -> Result<(), Fail> {
    for (bytes, told) in INPUTS {
        let fault = fault_of(rt.alloc(), bytes).unwrap_or(Failure::Device);
        assert!(rt; fault.status() == 2);
        assert!(rt; fault.to_string(rt.alloc())?.as_str() == *told);
    }
    Ok(())
}

#[test]
fn reads_a_last_line_without_a_line_feed(rt: HostRuntime) -> Result<(), Fail> {
    assert!(rt; fault_of(rt.alloc(), b"cap 2\n0 try_send 7\n31 try_recv").is_none());
    Ok(())
}
