//! The work of the program `kanal_run`, over any reader and any two writers.
//!
//! Nothing is judged before the input is read to its end, and nothing is written before all steps are made.
ghost use Rattle.std.specs.Prelude.{◌≡◌, ◌≢◌, ◌⊎◌, ◌≤◌, ℕ, Some, IfSome, IfOk, IfErr, OnOk, OnErr, IsTrue};
ghost use Rattle.std.specs.Io.KnownBytes.{Appends};
ghost use Rattle.kanal_script.specs.Faults.{IsFirstFault};
ghost use Rattle.kanal_script.specs.Program.{fault_of, fault_status, fault_text, IsAnswer, answer_text, AnswersScript, AppendsBeginning, BeginsToAnswer, IsReadFault, IsScriptFault};
ghost use Rattle.kanal_script.specs.Script.{line};

use crate::parser::{ParseError, parse};
use crate::printer::{print, print_too_large};
use kanal_core::error::NewError;
use kanal_journal::journal::{Report, run};
use std::alloc::Global;
use std::io::{Read, Write};
use std::{fmt, io};

#[derive(Clone, Copy, Debug, PartialEq, Eq)]
enum Fault {
    /// The line of this number, counted from 1, is the first that can't be read.
    Unreadable(usize),
    NoMemory,
    /// Reading or writing failed.
    Device,
}

impl Fault {
    fn status(self) -> u8
        ensures { result ≡ fault_status self }
    {
        match self {
            Fault::Unreadable(_) => 2,
            Fault::NoMemory | Fault::Device => 1,
        }
    }
}

impl fmt::Display for Fault {
    ghost output = { λ fault. Some (fault_text fault) };

    fn fmt<W: fmt::Write>(&self, f: &mut fmt::Formatter<W>) -> fmt::Result {
        match self {
            Fault::Unreadable(line) => write!(f, "kanal-run: line {line}: unreadable"),
            Fault::NoMemory => write!(f, "kanal-run: no memory"),
            Fault::Device => write!(f, "kanal-run: device fault"),
        }
    }
}

impl From<ParseError> for Fault {
    ghost from_gives = { λ error fault. fault ≡ fault_of error };

    fn from(error: ParseError) -> Fault {
        match error {
            ParseError::Unreadable(line) => Fault::Unreadable(line),
            ParseError::NoMemory => Fault::NoMemory,
        }
    }
}

fn read_all<R: Read>(alloc: Global, input: &mut R) -> Result<Vec<u8>, Fault>
    ensures read { IfOk result (λ read.
        IfSome (R.remaining input.old) (λ bytes. read.items ≡ bytes)) }
    ensures fault { IfErr result (λ fault. IsReadFault fault) }
{
    let mut bytes = Vec::new(alloc);
    match input.read_to_end(&mut bytes) {
        Ok(_) => Ok(bytes),
        Err(error) if error.kind() == io::ErrorKind::OutOfMemory => Err(Fault::NoMemory),
        Err(_) => Err(Fault::Device),
    }
}

/// Makes all steps of the script that the bytes write. `None` says that its capacity is too large.
fn run_script(alloc: Global, bytes: &[u8]) -> Result<Option<Report<u64>>, Fault>
    ensures answer { IfOk result (λ answer. IsAnswer bytes.now answer) }
    ensures fault { IfErr result (λ fault. IsScriptFault bytes.now fault) }
{
    let script = parse(alloc, bytes)?;
    match run(alloc, script.capacity, script.events) {
        Ok(report) => Ok(Some(report)),
        Err(NewError::TooLarge) => Ok(None),
        Err(NewError::NoMemory) => Err(Fault::NoMemory),
    }
}

fn printed(alloc: Global, answer: &Option<Report<u64>>) -> Result<Vec<u8>, Fault>
    ensures ok { IfOk result (λ text. text.items ≡ answer_text answer.now) }
    ensures err { IfErr result (λ fault. fault ≡ Fault.NoMemory) }
{
    let mut text = Vec::new(alloc);
    let result = match answer {
        Some(report) => print(&mut text, report),
        None => print_too_large(&mut text),
    };
    match result {
        Ok(()) => Ok(text),
        Err(_) => Err(Fault::NoMemory),
    }
}

/// Writes a text piece by piece. Std's `write_all` doesn't say what a write that failed had added; here
/// it is a beginning of the text.
fn write_pieces<W: Write>(output: &mut W, text: &[u8]) -> Result<(), Fault>
    ensures ok { OnOk result (Appends (W.contents output.old) (W.contents output.new) text.now) }
    ensures err { IfErr result (λ fault. fault ≡ Fault.Device) }
    ensures begun { OnErr result (AppendsBeginning (W.contents output.old) (W.contents output.new)
        text.now) }
{
    let mut rest = text;
    for _ in 0..u64::MAX {
        if rest.is_empty() {
            return Ok(());
        }
        match output.write(rest) {
            Ok(0) => return Err(Fault::Device),
            Ok(count) => {
                let (_written, later) = rest.split_at(count);
                rest = later;
            },
            Err(error) if error.kind() == io::ErrorKind::Interrupted => (),
            Err(_) => return Err(Fault::Device),
        }
    }
    Err(Fault::Device)
}

fn write_text<W: Write>(output: &mut W, text: &[u8]) -> Result<(), Fault>
    ensures ok { OnOk result (Appends (W.contents output.old) (W.contents output.new) text.now) }
    ensures err { IfErr result (λ fault. fault ≡ Fault.Device) }
    ensures begun { OnErr result (AppendsBeginning (W.contents output.old) (W.contents output.new)
        text.now) }
{
    write_pieces(output, text)?;
    let Ok(()) = output.flush() else {
        return Err(Fault::Device);
    };
    Ok(())
}

/// Tells the fault by a line on the writer for errors, and answers whether that was written.
fn tell<E: Write>(errors: &mut E, fault: Fault) -> bool
    ensures told { IsTrue result → Appends (E.contents errors.old) (E.contents errors.new)
        (line (fault_text fault)) }
{
    writeln!(errors, "{fault}").is_ok()
}

fn answer<R: Read, W: Write>(alloc: Global, input: &mut R, output: &mut W) -> Result<(), Fault>
    ensures ok { OnOk result (IfSome (R.remaining input.old)
        (λ bytes. AnswersScript bytes (W.contents output.old) (W.contents output.new))) }
    ensures kept { IfErr result (λ fault. fault ≢ Fault.Device → output.new ≡ output.old) }
    ensures begun { OnErr result ((output.new ≡ output.old)
        ⊎ IfSome (R.remaining input.old)
        (λ bytes. BeginsToAnswer bytes (W.contents output.old) (W.contents output.new))) }
    ensures fault { IfErr result (λ fault. IsReadFault fault
        ⊎ IfSome (R.remaining input.old) (λ bytes. IsScriptFault bytes fault)) }
{
    let bytes = read_all(alloc, input)?;
    let answer = run_script(alloc, &bytes)?;
    drop(bytes);
    let text = printed(alloc, &answer)?;
    write_text(output, &text)
}

/// Reads a script from `input`, makes its steps and writes a line for each to `output`.
///
/// The answer is the program's status:
///
/// - 0: the whole answer is written and flushed. A capacity that is too large is answered, too, by
///   the line `refused TooLarge`.
/// - 2: a line can't be read, by any reading of the input. Nothing is written to `output`.
/// - 1: memory is refused, or a device fails. Where it was `output` that failed, a beginning of the
///   answer may be written.
///
/// A fault's text goes to `errors`; the status is the same if that fails. The input is read to its
/// end before its first line is judged, so this waits for as long as the reader does.
///
/// ```
/// let mut input: &[u8] = b"cap 1\ntry_send 7\ntry_recv\n";
/// let mut output = Vec::new(rt.alloc());
/// let mut errors = Vec::new(rt.alloc());
/// assert_eq!(rt; serve(rt.alloc(), &mut input, &mut output, &mut errors), 0);
/// assert_eq!(rt; output.as_slice(), b"yes\ngot 7\n".as_slice());
/// ```
pub fn serve<R: Read, W: Write, E: Write>(
    alloc: Global,
    input: &mut R,
    output: &mut W,
    errors: &mut E,
) -> u8
    ensures status { result ≤ 2 }
    ensures answered { result ≡ 0 → IfSome (R.remaining input.old)
        (λ bytes. AnswersScript bytes (W.contents output.old) (W.contents output.new)) }
    ensures silent { result ≡ 0 → errors.new ≡ errors.old }
    ensures unreadable { result ≡ 2 → output.new ≡ output.old }
    ensures first { result ≡ 2 → IfSome (R.remaining input.old) (λ bytes. (number : ℕ)
        × IsFirstFault bytes (ParseError.Unreadable number)) }
    ensures begun { result ≡ 1 → (output.new ≡ output.old)
        ⊎ IfSome (R.remaining input.old)
        (λ bytes. BeginsToAnswer bytes (W.contents output.old) (W.contents output.new)) }
{
    match answer(alloc, input, output) {
        Ok(()) => 0,
        Err(fault) => {
            let _told = tell(errors, fault);
            fault.status()
        },
    }
}
