//! Reads a script from bytes, in one pass.
//!
//! The input is cut into lines at each line feed, and a line into words at each single space. No other module cuts
//! input.
ghost use Rattle.std.specs.Prelude.{◌≡◌, ◌↔◌, ℕ, ◌+◌, ◌<◌, ◌≤◌, ◌^◌, [], ◌∷◌, ◌++◌, length, take, drop, MatchOption, List, Option, IsTrue, IsSome, IsNone, IfSome, IfOk, IfErr, IsErr, OnOk, ◌≢◌, decimal};
ghost use Rattle.kanal_script.specs.declared.parser.ParseError.TheVariants.{NoMemory};
ghost use Rattle.kanal_script.specs.Faults.{IsFirstFault};
ghost use Rattle.kanal_script.specs.Words.{is_separator, word_of, after_word, IsWord, EndsWord, EndsLine, EventFits, FitsWord, limit_word};
ghost use Rattle.kanal_events.specs.declared.event.Event.{Event};
ghost use Rattle.kanal_events.specs.declared.event.Side.{Side};
ghost use Rattle.kanal_events.specs.declared.event.Ask.{Ask};
ghost use Rattle.kanal_script.specs.Script.{line, capacity_words, side_word, ask_word, event_words, script_text, IsReadTo, IsWritten, IsPlain};

use crate::script::Script;
use kanal_journal::journal::{Ask, Event, Side};
use std::alloc::{AllocFailed, Global};
use std::str;

/// Why bytes are no script.
#[derive(Clone, Copy, Debug, PartialEq, Eq)]
pub enum ParseError {
    /// The first line that can't be read, counted from 1.
    Unreadable(usize),
    /// There was no memory for the events before that line.
    NoMemory,
}

impl<T: Drop> From<AllocFailed<T>> for ParseError {
    ghost from_gives = { λ _ error. error ≡ NoMemory };

    fn from(_failed: AllocFailed<T>) -> ParseError {
        ParseError::NoMemory
    }
}

/// What is left to read, and the number of the line in which it begins.
#[derive(Drop)]
struct Parser<'a> {
    rest: &'a [u8],
    line: usize,
    ghost fits: { line + length rest.now < 2 ^ 64 },
}

impl<'a> Parser<'a> {
    fn new(bytes: &'a [u8]) -> Parser<'a>
        ensures rest { result.rest.now ≡ bytes.now }
        ensures line { result.line ≡ 1 }
    {
        Parser {
            rest: bytes,
            line: 1,
        }
    }

    /// Takes what stands before the next space, line feed or end, if it is text.
    fn word(&mut self) -> Option<&'a str>
        ensures taken { IfSome result (λ word. self.old.rest.now ≡ word.now ++ self.new.rest.now) }
        ensures read { (w s : List ℕ) → IsWord w → EndsWord s → self.old.rest.now ≡ w ++ s
            → MatchOption result ⊥ (λ word. (word.now ≡ w) × (self.new.rest.now ≡ s)) }
        ensures line { self.new.line ≡ self.old.line }
    {
        let rest = self.rest;
        let (word, after) = rest.split_at(word_len(rest));
        self.rest = after;
        match str::from_utf8(word) {
            Ok(text) => Some(text),
            Err(_) => None,
        }
    }

    fn skip(&mut self, byte: u8) -> bool
        ensures taken { IsTrue result → self.old.rest.now ≡ byte ∷ self.new.rest.now }
        ensures read { (s : List ℕ) → self.old.rest.now ≡ byte ∷ s → IsTrue result }
        ensures line { self.new.line ≡ self.old.line }
    {
        match self.rest.split_first() {
            Some((first, after)) if *first == byte => {
                self.rest = after;
                true
            },
            _ => false,
        }
    }

    fn next_word(&mut self) -> Option<&'a str>
        ensures taken { IfSome result (λ word. self.old.rest.now
            ≡ 32 ∷ (word.now ++ self.new.rest.now)) }
        ensures read { (w s : List ℕ) → IsWord w → EndsWord s → self.old.rest.now ≡ 32 ∷ (w ++ s)
            → MatchOption result ⊥ (λ word. (word.now ≡ w) × (self.new.rest.now ≡ s)) }
        ensures line { self.new.line ≡ self.old.line }
    {
        if self.skip(b' ') { self.word() } else { None }
    }

    fn argument(&mut self) -> Option<u64>
        ensures taken { IfSome result (λ n. self.old.rest.now
            ≡ 32 ∷ (decimal n ++ self.new.rest.now)) }
        ensures fits { IfSome result (λ n. n < 2 ^ 64) }
        ensures read { (n : ℕ) (s : List ℕ) → n < 2 ^ 64 → EndsWord s
            → self.old.rest.now ≡ 32 ∷ (decimal n ++ s) → IsSome result × (self.new.rest.now ≡ s) }
        ensures line { self.new.line ≡ self.old.line }
    {
        number(self.next_word()?)
    }

    fn capacity(&mut self) -> Option<Option<usize>>
        ensures taken { IfSome result (λ capacity. self.old.rest.now
            ≡ capacity_words capacity ++ self.new.rest.now) }
        ensures fits { IfSome result (λ capacity. FitsWord capacity) }
        ensures read { (capacity : Option ℕ) (s : List ℕ) → FitsWord capacity → EndsWord s
            → self.old.rest.now ≡ capacity_words capacity ++ s → IsSome result
            × (self.new.rest.now ≡ s) }
        ensures line { self.new.line ≡ self.old.line }
    {
        match self.word()? {
            "cap" => self.limit(),
            _ => None,
        }
    }

    fn limit(&mut self) -> Option<Option<usize>>
        ensures taken { IfSome result (λ capacity. self.old.rest.now
            ≡ 32 ∷ (limit_word capacity ++ self.new.rest.now)) }
        ensures fits { IfSome result (λ capacity. FitsWord capacity) }
        ensures read { (capacity : Option ℕ) (s : List ℕ) → FitsWord capacity → EndsWord s
            → self.old.rest.now ≡ 32 ∷ (limit_word capacity ++ s) → IsSome result
            × (self.new.rest.now ≡ s) }
        ensures line { self.new.line ≡ self.old.line }
    {
        match self.next_word()? {
            "unbounded" => Some(None),
            word => Some(Some(number(word)? as usize)),
        }
    }

    fn event(&mut self) -> Option<Event<u64>>
        ensures taken { IfSome result (λ event. self.old.rest.now
            ≡ event_words event ++ self.new.rest.now) }
        ensures fits { IfSome result (λ event. EventFits event) }
        ensures read { (event : Event ℕ) (s : List ℕ) → EventFits event → EndsWord s
            → self.old.rest.now ≡ event_words event ++ s → IsSome result × (self.new.rest.now ≡ s) }
        ensures line { self.new.line ≡ self.old.line }
    {
        match self.word()? {
            "send" => Some(Event::Send(self.argument()?)),
            "try_send" => Some(Event::TrySend(self.argument()?)),
            "recv" => Some(Event::Recv),
            "recv_late" => Some(Event::RecvLate),
            "try_recv" => Some(Event::TryRecv),
            "drain" => Some(Event::Drain),
            "withdraw" => Some(Event::Withdraw(self.argument()?)),
            "clone_tx" => Some(Event::CloneTx),
            "clone_rx" => Some(Event::CloneRx),
            "drop_tx" => Some(Event::DropTx),
            "drop_rx" => Some(Event::DropRx),
            "seal" => Some(Event::Seal),
            "close" => Some(Event::Close),
            "ask" => {
                let side = self.side()?;
                Some(Event::Ask(side, self.question()?))
            },
            "terminated" => Some(Event::Terminated),
            _ => None,
        }
    }

    fn side(&mut self) -> Option<Side>
        ensures taken { IfSome result (λ side. self.old.rest.now
            ≡ 32 ∷ (side_word side ++ self.new.rest.now)) }
        ensures read { (side : Side) (s : List ℕ) → EndsWord s
            → self.old.rest.now ≡ 32 ∷ (side_word side ++ s) → IsSome result
            × (self.new.rest.now ≡ s) }
        ensures line { self.new.line ≡ self.old.line }
    {
        match self.next_word()? {
            "tx" => Some(Side::Tx),
            "rx" => Some(Side::Rx),
            _ => None,
        }
    }

    fn question(&mut self) -> Option<Ask>
        ensures taken { IfSome result (λ ask. self.old.rest.now
            ≡ 32 ∷ (ask_word ask ++ self.new.rest.now)) }
        ensures read { (ask : Ask) (s : List ℕ) → EndsWord s
            → self.old.rest.now ≡ 32 ∷ (ask_word ask ++ s) → IsSome result
            × (self.new.rest.now ≡ s) }
        ensures line { self.new.line ≡ self.old.line }
    {
        match self.next_word()? {
            "is_bounded" => Some(Ask::IsBounded),
            "len" => Some(Ask::Len),
            "is_empty" => Some(Ask::IsEmpty),
            "is_full" => Some(Ask::IsFull),
            "capacity" => Some(Ask::Capacity),
            "receiver_count" => Some(Ask::ReceiverCount),
            "sender_count" => Some(Ask::SenderCount),
            "is_closed" => Some(Ask::IsClosed),
            "is_disconnected" => Some(Ask::IsDisconnected),
            _ => None,
        }
    }

    /// Takes the end of a line, after which the next line begins.
    fn end_line(&mut self) -> bool
        ensures taken { IsTrue result → IsReadTo self.old.rest.now (line []) self.new.rest.now }
        ensures next { IsTrue result → 0 < length self.new.rest.now
            → self.new.line ≡ self.old.line + 1 }
        ensures read { EndsLine self.old.rest.now → IsTrue result }
    {
        if self.rest.is_empty() {
            return true;
        }
        if self.skip(b'\n') {
            self.line += 1;
            true
        } else {
            false
        }
    }

    fn capacity_line(&mut self) -> Result<Option<usize>, ParseError>
        ensures taken { IfOk result (λ capacity.
            IsReadTo self.old.rest.now (line (capacity_words capacity)) self.new.rest.now) }
        ensures fits { IfOk result (λ capacity. FitsWord capacity) }
        ensures unreadable { IsErr result → (capacity : Option ℕ) (rest : List ℕ)
            → FitsWord capacity
            → ¬ (IsReadTo self.old.rest.now (line (capacity_words capacity)) rest) }
        ensures next { OnOk result (0 < length self.new.rest.now
            → self.new.line ≡ self.old.line + 1) }
        ensures fault { IfErr result (λ error. error ≡ ParseError.Unreadable self.old.line) }
    {
        let line = self.line;
        let Some(capacity) = self.capacity() else {
            return Err(ParseError::Unreadable(line));
        };
        if !self.end_line() {
            return Err(ParseError::Unreadable(line));
        }
        Ok(capacity)
    }

    fn event_line(&mut self) -> Result<Event<u64>, ParseError>
        ensures taken { IfOk result (λ event.
            IsReadTo self.old.rest.now (line (event_words event)) self.new.rest.now) }
        ensures fits { IfOk result (λ event. EventFits event) }
        ensures unreadable { IsErr result → (event : Event ℕ) (rest : List ℕ) → EventFits event
            → ¬ (IsReadTo self.old.rest.now (line (event_words event)) rest) }
        ensures next { OnOk result (0 < length self.new.rest.now
            → self.new.line ≡ self.old.line + 1) }
        ensures fault { IfErr result (λ error. error ≡ ParseError.Unreadable self.old.line) }
    {
        let line = self.line;
        let Some(event) = self.event() else {
            return Err(ParseError::Unreadable(line));
        };
        if !self.end_line() {
            return Err(ParseError::Unreadable(line));
        }
        Ok(event)
    }
}

fn is_separator(byte: u8) -> bool
    ensures { result ≡ is_separator byte }
{
    byte == b' ' || byte == b'\n'
}

fn word_len(bytes: &[u8]) -> usize
    ensures within { result ≤ length bytes.now }
    ensures word { take result bytes.now ≡ word_of bytes.now }
    ensures after { drop result bytes.now ≡ after_word bytes.now }
{
    for (place, byte) in bytes.iter().enumerate() {
        if is_separator(*byte) {
            return place;
        }
    }
    bytes.len()
}

/// Whether the word begins as a number does: with no plus, and with no zero before a digit.
fn is_plain(word: &str) -> bool
    ensures { IsTrue result ↔ IsPlain word.now }
{
    match word.as_bytes() {
        [b'+', ..] | [b'0', _, ..] => false,
        _ => true,
    }
}

/// The number that the word writes in decimal digits, with no leading zero.
///
/// `None` says that the word is no such number, or one above 18446744073709551615.
///
/// ```
/// assert_eq!(rt; number("10"), Some(10));
/// assert_eq!(rt; number("010"), None);
/// ```
pub fn number(word: &str) -> Option<u64>
    ensures value { IfSome result (λ n. word.now ≡ decimal n) }
    ensures none { IsNone result → (n : ℕ) → n < 2 ^ 64 → word.now ≢ decimal n }
{
    if is_plain(word) {
        word.parse::<u64>().ok()
    } else {
        None
    }
}

/// Reads a script.
///
/// Its first line must be a `cap` line, and each line after it an event. A last line feed may be left out. The error
/// tells the first line that can't be read, or that memory was refused before one was found. All lines before that
/// one were read, and every script that the input begins with ends before it.
///
/// ```
/// let script = parse(rt.alloc(), b"cap 1\ntry_send 7")?;
/// assert_eq!(rt; script.capacity, Some(1));
/// assert_eq!(rt; script.events.len(), 1);
/// ```
pub fn parse(alloc: Global, bytes: &[u8]) -> Result<Script, ParseError>
    ensures fault { IfErr result (IsFirstFault bytes.now) }
    ensures written { IfOk result (λ script.
        IsWritten bytes.now (script_text script.capacity script.events.items)) }
{
    let mut parser = Parser::new(bytes);
    let capacity = parser.capacity_line()?;
    let mut events = Vec::new(alloc);
    while !parser.rest.is_empty() {
        events.push(parser.event_line()?)?;
    }
    Ok(Script { capacity, events })
}
