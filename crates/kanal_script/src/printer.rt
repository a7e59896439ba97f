//! Prints what a script answered, a line a step and then that step's settlements.
//!
//! No other module writes these texts.
ghost use Rattle.std.specs.Prelude.{◌≡◌, ◌≤◌, length, drop, OnOk};
ghost use Rattle.std.specs.Io.KnownBytes.{Appends};
ghost use Rattle.kanal_script.specs.Script.{line};
ghost use Rattle.kanal_script.specs.Answer.{refusal_name, reason_name, messages_text, reply_words, flag_word, counted, drained_count, cleared_count, settlement_words, settlements_text, count_settled, report_text, too_large_text};

use kanal_core::internal::{Outcome, Reason};
use kanal_journal::journal::{Refusal, Reply, Report, Settlement};
use std::io;
use std::io::Write;

fn refusal_name(refusal: Refusal) -> &'static str
    ensures { result.now ≡ refusal_name refusal }
{
    match refusal {
        Refusal::Closed => "Closed",
        Refusal::ReceiveClosed => "ReceiveClosed",
        Refusal::Sealed => "Sealed",
        Refusal::SendClosed => "SendClosed",
        Refusal::Timeout => "Timeout",
        Refusal::NoMemory => "NoMemory",
        Refusal::TooMany => "TooMany",
        Refusal::CloseError => "CloseError",
        Refusal::NoHandle => "NoHandle",
        Refusal::NotWaiting => "NotWaiting",
    }
}

fn reason_name(reason: Reason) -> &'static str
    ensures { result.now ≡ reason_name reason }
{
    match reason {
        Reason::Closed => "Closed",
        Reason::SendClosed => "SendClosed",
        Reason::ReceiveClosed => "ReceiveClosed",
    }
}

fn flag_word(flag: bool) -> &'static str
    ensures { result.now ≡ flag_word flag }
{
    if flag { "true" } else { "false" }
}

/// The drained and the cleared messages that no reply has counted yet.
#[derive(Drop)]
struct Uncounted<'a> {
    drained: &'a [u64],
    cleared: &'a [u64],
}

impl<'a> Uncounted<'a> {
    /// Takes those that the reply counts.
    fn take(&mut self, reply: &Reply<u64>) -> &'a [u64]
        ensures own { result.now ≡ counted reply.now self.old.drained.now self.old.cleared.now }
        ensures drained { self.new.drained.now
            ≡ drop (drained_count reply.now) self.old.drained.now }
        ensures cleared { self.new.cleared.now
            ≡ drop (cleared_count reply.now) self.old.cleared.now }
    {
        match reply {
            Reply::Drained(count) => {
                let (own, later) = self.drained.split_at((*count).min(self.drained.len()));
                self.drained = later;
                own
            },
            Reply::Cleared(count) => {
                let (own, later) = self.cleared.split_at((*count).min(self.cleared.len()));
                self.cleared = later;
                own
            },
            _ => &[],
        }
    }
}

fn print_messages<W: Write>(output: &mut W, messages: &[u64]) -> io::Result<()>
    ensures { OnOk result (Appends (W.contents output.old) (W.contents output.new)
        (line (messages_text messages.now))) }
{
    for message in messages {
        write!(output, " {message}")?;
    }
    writeln!(output, "")
}

/// Prints a reply's line.
///
/// The count of a drain or of a close is followed by the messages, and a refusal or a withdrawal by the message that
/// comes back with it. The error is the writer's own; a beginning of the line may then have been written.
///
/// ```
/// let mut text = Vec::new(rt.alloc());
/// print_reply(&mut text, &Reply::Refused(Refusal::Closed, Some(7)), &[])?;
/// assert_eq!(rt; text.as_slice(), b"refused Closed 7\n".as_slice());
/// ```
pub fn print_reply<W: Write>(output: &mut W, reply: &Reply<u64>, messages: &[u64]) -> io::Result<()>
    ensures { OnOk result (Appends (W.contents output.old) (W.contents output.new)
        (line (reply_words reply.now messages.now))) }
{
    match reply {
        Reply::Sent => writeln!(output, "sent"),
        Reply::Waits(ticket) => writeln!(output, "waits {ticket}"),
        Reply::Yes => writeln!(output, "yes"),
        Reply::No(message) => writeln!(output, "no {message}"),
        Reply::Got(message) => writeln!(output, "got {message}"),
        Reply::Nothing => writeln!(output, "nothing"),
        Reply::Drained(count) => {
            write!(output, "drained {count}")?;
            print_messages(output, messages)
        },
        Reply::Withdrawn(None) => writeln!(output, "withdrawn"),
        Reply::Withdrawn(Some(message)) => writeln!(output, "withdrawn {message}"),
        Reply::Done => writeln!(output, "done"),
        Reply::Cleared(count) => {
            write!(output, "cleared {count}")?;
            print_messages(output, messages)
        },
        Reply::Number(number) => writeln!(output, "{number}"),
        Reply::Flag(flag) => writeln!(output, "{}", flag_word(*flag)),
        Reply::Refused(refusal, None) => writeln!(output, "refused {}", refusal_name(*refusal)),
        Reply::Refused(refusal, Some(message)) => {
            writeln!(output, "refused {} {message}", refusal_name(*refusal))
        },
    }
}

/// Prints a settlement's line: the ticket, what became of its wait, and the message that a receive
/// is given or a send has back.
///
/// The error is the writer's own; a beginning of the line may then have been written.
///
/// ```
/// let settlement = Settlement { step: 2, ticket: 0, outcome: Outcome::Given(7) };
/// let mut text = Vec::new(rt.alloc());
/// print_settlement(&mut text, &settlement)?;
/// assert_eq!(rt; text.as_slice(), b"ticket 0 given 7\n".as_slice());
/// ```
pub fn print_settlement<W: Write>(output: &mut W, settlement: &Settlement<u64>) -> io::Result<()>
    ensures { OnOk result (Appends (W.contents output.old) (W.contents output.new)
        (line (settlement_words settlement.now))) }
{
    let ticket = settlement.ticket;
    match &settlement.outcome {
        Outcome::Taken => writeln!(output, "ticket {ticket} taken"),
        Outcome::Given(message) => writeln!(output, "ticket {ticket} given {message}"),
        Outcome::Ended(reason, None) => {
            writeln!(output, "ticket {ticket} ended {}", reason_name(*reason))
        },
        Outcome::Ended(reason, Some(message)) => {
            writeln!(
                output,
                "ticket {ticket} ended {} {message}",
                reason_name(*reason)
            )
        },
    }
}

fn count_settled(step: usize, settled: &[Settlement<u64>]) -> usize
    ensures count { result ≡ count_settled step settled.now }
    ensures within { result ≤ length settled.now }
{
    settled
        .iter()
        .take_while(|settlement| settlement.step == step)
        .count()
}

fn print_settlements<W: Write>(output: &mut W, settled: &[Settlement<u64>]) -> io::Result<()>
    ensures { OnOk result (Appends (W.contents output.old) (W.contents output.new)
        (settlements_text settled.now)) }
{
    for settlement in settled {
        print_settlement(output, settlement)?;
    }
    Ok(())
}

/// Prints a report: the line of each step's reply, each followed by that step's settlements.
///
/// What is left in the line at the end isn't printed. The error is the writer's own; a beginning of
/// the text may then have been written.
///
/// ```
/// let script = parse(rt.alloc(), b"cap 0\nsend 7\ntry_recv")?;
/// let report = run(rt.alloc(), script.capacity, script.events)?;
/// let mut text = Vec::new(rt.alloc());
/// print(&mut text, &report)?;
/// assert_eq!(rt; text.as_slice(), b"waits 0\ngot 7\nticket 0 taken\n".as_slice());
/// ```
pub fn print<W: Write>(output: &mut W, report: &Report<u64>) -> io::Result<()>
    ensures { OnOk result (Appends (W.contents output.old) (W.contents output.new)
        (report_text report.now)) }
{
    let mut messages = Uncounted {
        drained: report.drained.as_slice(),
        cleared: report.cleared.as_slice(),
    };
    let mut settled = report.settled.as_slice();
    for (step, reply) in report.replies.iter().enumerate() {
        print_reply(output, reply, messages.take(reply))?;
        let (own, later) = settled.split_at(count_settled(step, settled));
        print_settlements(output, own)?;
        settled = later;
    }
    Ok(())
}

/// Prints the one line of a script whose capacity is too large.
///
/// The error is the writer's own; a beginning of the line may then have been written.
///
/// ```
/// let mut text = Vec::new(rt.alloc());
/// print_too_large(&mut text)?;
/// assert_eq!(rt; text.as_slice(), b"refused TooLarge\n".as_slice());
/// ```
pub fn print_too_large<W: Write>(output: &mut W) -> io::Result<()>
    ensures { OnOk result (Appends (W.contents output.old) (W.contents output.new) too_large_text) }
{
    writeln!(output, "refused TooLarge")
}
