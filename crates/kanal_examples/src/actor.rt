//! An actor: a thread owns a price list, which only messages reach; clients ask it, each with a deadline.
//!
//! A question brings the sender of a channel for one message. The mailbox ends by a seal: what was in it before is
//! still answered, and what comes later is refused.
use anyhow::Result;
use kanal::error::{ReceiveErrorTimeout, SendError};
use kanal::{Clock, Receiver, Sender, SystemClock, TestClock};
use std::alloc::AllocGlobal;
use std::collections::BTreeMap;
use std::sync::Wait;
use std::thread::{self, JoinHandle, Threads};
use std::time::{self, Duration};

/// What the price thread is asked to do.
#[derive(Drop)]
enum Request {
    /// To send the price of a name there, if it is in the list.
    Price(String, Sender<Option<u64>>),
    /// To set the price of a name, without an answer.
    Change(String, u64),
    /// To wait until the other end says that it is enough, or is gone.
    Pause(Receiver<()>),
}

/// What a client got for its question.
#[derive(Clone, Copy, Debug)]
enum Quote {
    /// The price.
    Price(u64),
    /// The name isn't in the list.
    Unknown,
    /// The deadline came first.
    TooLate,
    /// The price thread has ended.
    Ended,
}

/// What the price thread owns, and returns at its end.
#[derive(Drop)]
struct Shop {
    /// The price of each name.
    prices: BTreeMap<String, u64>,
    /// How many questions were answered in time.
    answered: u64,
    /// How many answers were refused, since their client was gone.
    refused: u64,
}

impl Shop {
    /// Does what one request asks.
    fn handle<R: Wait>(&mut self, rt: &R, request: Request) -> Result<()> {
        match request {
            Request::Price(name, reply) => {
                match reply.send(rt, self.prices.get(name.as_str()).copied()) {
                    Ok(()) => self.answered = self.answered.saturating_add(1),
                    Err(SendError::ReceiveClosed) => self.refused = self.refused.saturating_add(1),
                    Err(error) => return Err(error.into()),
                }
            }
            Request::Change(name, price) => {
                self.prices.insert(name, price)?;
            }
            Request::Pause(until) => {
                let _enough = until.recv(rt);
            }
        }
        Ok(())
    }
}

/// Serves each request, until no more come.
fn serve<R: Wait>(rt: &R, mut shop: Shop, requests: &Receiver<Request>) -> Result<Shop> {
    let served = requests.try_for_each(rt, |request| shop.handle(rt, request));
    // A request that nobody will answer goes, and with it the sender for its answer.
    let _closed = requests.close(rt);
    served??;
    Ok(shop)
}

/// Starts the price thread, with an empty list.
fn start<R>(rt: R, requests: Receiver<Request>) -> Result<JoinHandle<Result<Shop>>>
where
    R: Threads + Wait + AllocGlobal + Copy + Send + 'static,
{
    let shop = Shop {
        prices: BTreeMap::new(rt.alloc()),
        answered: 0,
        refused: 0,
    };
    let thread = thread::spawn(&rt, move || serve(&rt, shop, &requests))?;
    Ok(thread)
}

/// Asks for one price, and waits for it until the deadline.
fn ask<R: Wait + AllocGlobal + time::Clock, C: Clock>(
    rt: &R,
    mailbox: &Sender<Request>,
    name: &str,
    patience: Duration,
    clock: &C,
) -> Result<Quote> {
    let (reply, answer) = kanal::bounded(rt.alloc(), 1)?;
    let name = String::from_str(rt.alloc(), name)?;
    match mailbox.send(rt, Request::Price(name, reply)) {
        Ok(()) => {}
        Err(SendError::Closed | SendError::Sealed) => return Ok(Quote::Ended),
        Err(error) => return Err(error.into()),
    }
    match answer.recv_timeout(rt, patience, clock) {
        Ok(price) => Ok(price.map_or(Quote::Unknown, Quote::Price)),
        Err(ReceiveErrorTimeout::Timeout) => Ok(Quote::TooLate),
        Err(ReceiveErrorTimeout::SendClosed) => Ok(Quote::Ended),
        Err(error) => Err(error.into()),
    }
}

/// Asks on a thread of its own with an hour's patience, and prints what that client got.
fn client<R>(rt: R, mailbox: &Sender<Request>, name: &'static str) -> Result<()>
where
    R: Threads + Wait + AllocGlobal + Print + time::Clock + Copy + Send + 'static,
{
    let mailbox = mailbox.clone(&rt)?;
    let thread = thread::spawn(&rt, move || {
        let clock = SystemClock::new(&rt);
        ask(&rt, &mailbox, name, Duration::from_secs(3600), &clock)
    })?;
    println!(rt; "{name}: {:?}", thread.join(&rt)?)?;
    Ok(())
}

/// Sets a price, without waiting for an answer.
fn change<R>(rt: &R, mailbox: &Sender<Request>, name: &str, price: u64) -> Result<()>
where
    R: Wait + AllocGlobal,
{
    let name = String::from_str(rt.alloc(), name)?;
    mailbox.send(rt, Request::Change(name, price))?;
    Ok(())
}

/// Asks each kind of question, and prints what came of it.
pub fn show<R>(rt: R) -> Result<()>
where
    R: Threads + Wait + AllocGlobal + Print + time::Clock + Copy + Send + 'static,
{
    let (mailbox, requests) = kanal::bounded(rt.alloc(), 8)?;
    let thread = start(rt, requests)?;
    change(&rt, &mailbox, "tea", 30)?;
    client(rt, &mailbox, "tea")?;
    client(rt, &mailbox, "milk")?;
    let (enough, until) = kanal::bounded(rt.alloc(), 1)?;
    mailbox.send(&rt, Request::Pause(until))?;
    let patience = Duration::from_nanos(9);
    let late = ask(&rt, &mailbox, "tea", patience, &TestClock::rising())?;
    enough.send(&rt, ())?;
    println!(rt; "tea, held back: {late:?}")?;
    change(&rt, &mailbox, "tea", 45)?;
    client(rt, &mailbox, "tea")?;
    let sealed = mailbox.seal(&rt);
    let shop = thread.join(&rt)?;
    sealed?;
    println!(rt; "answered: {}, refused: {}", shop.answered, shop.refused)?;
    client(rt, &mailbox, "tea")
}
