//! Whether the passes' lists and a journal agree.
//!
//! It is the one place that compares messages, by the type's own `==`.
ghost use Rattle.std.specs.Prelude.{◌≡◌, ◌≢◌, ◌<◌, ◌≤◌, true, length, IfSome};
ghost use Rattle.std.specs.List.{All, AllPairs, sum_by};
ghost use Rattle.kanal_recorded.specs.Merges.{IsMerged, NotesAmong, IsApart, IsNoteOf, IsIdentity};
ghost use Rattle.kanal_recorded.specs.Comparing.{HasReached, HaveReached, AreAtEnd};

use crate::pass::{Note, Pass};
use kanal_journal::journal::{Entry, Event, Reply};

/// How many entries are compared with one pass, before the next one's turn comes, at least.
const WINDOW: usize = 4_096;

/// How many passes take turns at most.
const GROUP: usize = 512;

/// How far a pass's list was compared: how many of its notes, and up to which entry.
#[derive(Clone, Copy)]
struct Reached {
    notes: usize,
    entries: usize,
}

impl Reached {
    const START: Reached = Reached {
        notes: 0,
        entries: 0,
    };
}

/// Whether the entries are the passes' calls, each where its pass has kept it.
///
/// Notes of two passes, or two of one pass, are never of one entry. So the lists are all that the
/// journal has if they have together as many notes as it has entries.
pub(crate) fn is_merged<T: Copy + Eq>(entries: &[Entry<T>], passes: &[Pass<T>]) -> bool
    requires { IsIdentity T.eq }
    ensures { result ≡ true → IsMerged entries.now passes.now }
{
    if !are_apart(passes) || !are_as_many(passes, entries.len()) {
        return false;
    }
    are_among(entries, passes)
}

fn are_apart<T: Copy>(passes: &[Pass<T>]) -> bool
    ensures { result ≡ true → AllPairs (λ p q. p.party ≢ q.party) passes.now }
{
    for later in 0..passes.len() {
        if !is_apart(passes, later) {
            return false;
        }
    }
    true
}

fn is_apart<T: Copy>(passes: &[Pass<T>], later: usize) -> bool
    requires { later < length passes.now }
    ensures { result ≡ true → IsApart passes.now later }
{
    for earlier in 0..later {
        if passes[earlier].party() == passes[later].party() {
            return false;
        }
    }
    true
}

fn are_as_many<T: Copy>(passes: &[Pass<T>], entries: usize) -> bool
    ensures { result ≡ true → sum_by (λ p. length p.notes) passes.now ≡ entries }
{
    let mut left = entries;
    for pass in passes {
        let count = pass.notes().len();
        if count > left {
            return false;
        }
        left -= count;
    }
    left == 0
}

fn last_party<T: Copy>(passes: &[Pass<T>]) -> u32 {
    let mut last = 0;
    for pass in passes {
        last = pass.party().max(last);
    }
    last
}

/// Whether each pass's list is of entries of its party. However many passes there are, they take no
/// more turns than there are entries and passes, and the entries' parties are looked through once.
fn are_among<T: Copy + Eq>(entries: &[Entry<T>], passes: &[Pass<T>]) -> bool
    requires { IsIdentity T.eq }
    ensures { result ≡ true → All (NotesAmong entries.now) passes.now }
{
    let window = WINDOW.max(passes.len());
    let mut last = Some(last_party(passes));
    let mut first = 0;
    while first < passes.len() {
        let end = first + GROUP.min(passes.len() - first);
        if !is_group_among(entries, &passes[first..end], window, last) {
            return false;
        }
        last = None;
        first = end;
    }
    true
}

/// Whether each list of a few passes is of entries of its party. They take turns at so many entries, once those are
/// known to be of no party after the last one, if that is told. The entries of one pass may lie far apart; that look
/// goes through them side by side, so that the processor has them at hand for all turns.
fn is_group_among<T: Copy + Eq>(
    entries: &[Entry<T>],
    group: &[Pass<T>],
    window: usize,
    last: Option<u32>,
) -> bool
    requires equal { IsIdentity T.eq }
    requires few { length group.now ≤ GROUP }
    requires wide { 0 < window }
    ensures { result ≡ true → All (NotesAmong entries.now) group.now }
{
    let mut reached = [Reached::START; GROUP];
    let mut end = 0;
    while end < entries.len() {
        let start = end;
        end += window.min(entries.len() - end);
        if !are_up_to(last, &entries[start..end])
            || !are_alike_before(end, entries, group, &mut reached)
        {
            return false;
        }
    }
    are_at_end(group, &reached)
}

/// Whether none of these entries is of a party after the last one; of any, where none is the last.
fn are_up_to<T: Copy>(last: Option<u32>, entries: &[Entry<T>]) -> bool {
    let Some(last) = last else {
        return true;
    };
    for entry in entries {
        if entry.party > last {
            return false;
        }
    }
    true
}

/// Whether the notes whose places are before this end are of their entries: of each pass from where it
/// had come to on. What is kept is how far each came.
fn are_alike_before<T: Copy + Eq>(
    end: usize,
    entries: &[Entry<T>],
    group: &[Pass<T>],
    reached: &mut [Reached; GROUP],
) -> bool
    requires equal { IsIdentity T.eq }
    requires few { length group.now ≤ GROUP }
    requires reached { HaveReached entries.now group.now reached.old }
    ensures { result ≡ true → HaveReached entries.now group.now reached.new }
{
    for (number, pass) in group.iter().enumerate() {
        match compared_before(end, entries, pass, reached[number]) {
            Some(further) => reached[number] = further,
            None => return false,
        }
    }
    true
}

/// Compares the pass's notes from where it had come to on, while their places are before this end, and
/// answers how far it came. `None` where a note is not of its entry, or not behind the one before.
fn compared_before<T: Copy + Eq>(
    end: usize,
    entries: &[Entry<T>],
    pass: &Pass<T>,
    reached: Reached,
) -> Option<Reached>
    requires equal { IsIdentity T.eq }
    requires reached { HasReached entries.now pass.now reached }
    ensures { IfSome result (HasReached entries.now pass.now) }
{
    let party = pass.party();
    let notes = pass.notes();
    let mut next = reached.entries;
    for count in reached.notes..notes.len() {
        let note = &notes[count];
        let place = note.place;
        if place >= end {
            return Some(Reached {
                notes: count,
                entries: next,
            });
        }
        if place < next || place >= entries.len() {
            return None;
        }
        let entry = &entries[place];
        if entry.party != party || !is_note_of(entry, note) {
            return None;
        }
        next = place + 1;
    }
    Some(Reached {
        notes: notes.len(),
        entries: next,
    })
}

fn are_at_end<T: Copy>(group: &[Pass<T>], reached: &[Reached; GROUP]) -> bool
    requires { length group.now ≤ GROUP }
    ensures { result ≡ true → AreAtEnd group.now reached.now (length group.now) }
{
    for (number, pass) in group.iter().enumerate() {
        if reached[number].notes != pass.notes().len() {
            return false;
        }
    }
    true
}

fn is_note_of<T: Copy + Eq>(entry: &Entry<T>, note: &Note<T>) -> bool
    requires { IsIdentity T.eq }
    ensures { result ≡ true → IsNoteOf entry.now note.now }
{
    note.seen <= note.place
        && is_event(&entry.event, &note.event)
        && is_reply(&entry.reply, &note.reply)
}

fn is_event<T: Copy + Eq>(a: &Event<T>, b: &Event<T>) -> bool
    requires { IsIdentity T.eq }
    ensures { result ≡ true → a.now ≡ b.now }
{
    *a == *b
}

fn is_reply<T: Copy + Eq>(a: &Reply<T>, b: &Reply<T>) -> bool
    requires { IsIdentity T.eq }
    ensures { result ≡ true → a.now ≡ b.now }
{
    *a == *b
}

pub(crate) fn is_capacity(a: Option<usize>, b: Option<usize>) -> bool
    ensures { result ≡ true → a ≡ b }
{
    a == b
}
