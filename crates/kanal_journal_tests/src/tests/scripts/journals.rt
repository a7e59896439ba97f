//! A list of events, at messages that own memory.
use kanal_journal::journal::{Event, Reply, run};
use std::alloc::Global;
use std::test::Fail;

/// Two messages that enter, one that finds no place, and a receive.
fn events(alloc: Global) -> Result<Vec<Event<String>>, Fail> {
    let mut events = Vec::new(alloc);
    for text in ["one", "two", "three"] {
        events.push(Event::TrySend(String::from_str(alloc, text)?))?;
    }
    events.push(Event::TryRecv)?;
    Ok(events)
}

#[test]
fn texts_as_messages(rt: HostRuntime) -> Result<(), Fail> {
    let report = run(rt.alloc(), Some(2), events(rt.alloc())?)?;
    let are_replies = match report.replies.as_slice() {
        [Reply::Yes, Reply::Yes, Reply::No(back), Reply::Got(message)] => {
            back.as_str() == "three" && message.as_str() == "one"
        },
        _ => false,
    };
    assert!(rt; are_replies);
    let is_left = match report.left.as_slice() {
        [only] => only.as_str() == "two",
        _ => false,
    };
    assert!(rt; is_left);
    assert!(rt; report.cleared.is_empty());
    assert!(rt; report.drained.is_empty());
    assert!(rt; report.settled.is_empty());
    Ok(())
}
