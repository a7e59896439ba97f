//! Writes a history as an SVG sequence diagram, what lies behind first; only numbers and fixed words, so nothing is escaped.
use crate::history::{DrawnHistory, DrawnRow, Mark};
use crate::ways::{Arrow, Spot, Wait};
use std::alloc::{AllocError, Global};

/// How high a row is, and where the first begins.
const ROW: usize = 28;

const TOP: usize = 92;

/// How wide a character is at most, how far apart bars are, and how wide the space is in which arrows bend.
const CHARACTER: usize = 8;

const SLOT: usize = 9;

const BEND: usize = 30;

/// Where the numbers of the rows end.
const NUMBERS: usize = 56;

/// The head of an arrow.
const HEAD: &str = "<defs>\
    <marker id='head' markerUnits='userSpaceOnUse' markerWidth='12' markerHeight='12' \
    viewBox='0 0 12 12' refX='13' refY='6' orient='auto'>\
    <path d='M1 1.5 l10 4.5 l-10 4.5 z' fill='#14305c'/></marker></defs>\n";

/// Where a group of shapes that are drawn alike begins, and the one before it ends.
const LANES: &str = "<g stroke='#b0b0b0' stroke-dasharray='2 3' fill='#202020'>\n";

const BARS: &str = "<g fill='#a0a0a0'>\n";

const ARROWS: &str =
    "</g><g stroke='#14305c' stroke-width='1.3' fill='none' marker-end='url(#head)'>\n";

const ENTRIES: &str =
    "</g><g stroke='white' stroke-width='3' paint-order='stroke' fill='#202020'>\n";

/// What the signs mean.
const LEGEND: &str =
    "arrow: a message's way; bar: a wait (crossed: lost); across: close (dashed: seal)";

/// What is written so far, and how wide things are.
#[derive(Drop)]
struct Drawing {
    text: String,
    parties: u32,
    /// How wide a lane is, and how far its line is from its left.
    lane: usize,
    room: usize,
    /// Where the messages in the line are written, where the picture ends on the right, and where the rows end.
    line: usize,
    width: usize,
    bottom: usize,
}

/// How wide so many characters are.
fn pixels(characters: usize) -> usize {
    characters.saturating_mul(CHARACTER)
}

/// Where a row begins.
fn row_top(row: usize) -> usize {
    TOP.saturating_add(row.saturating_mul(ROW))
}

/// Where the arrows and the bars of a row begin and end.
fn row_foot(row: usize) -> usize {
    row_top(row).saturating_add(21)
}

impl Drawing {
    /// Lays out a history: lanes are as wide as the widest words and the most bars side by side.
    fn of(alloc: Global, history: &DrawnHistory<'_>) -> Drawing {
        let (mut parties, mut words, mut line) = (0, 5, 4);
        for row in &history.rows {
            parties = parties.max(row.party.saturating_add(1));
            words = words.max(row.call.len().saturating_add(row.answer.len()));
            line = line.max(row.line.len());
        }
        let slots = history.ways.waits.iter().map(|wait| wait.from.slot).max();
        let room = BEND.saturating_add(slots.unwrap_or(0).saturating_mul(SLOT));
        let lane = room.saturating_add(pixels(words.saturating_add(5)));
        let lanes = lane.saturating_mul(parties as usize);
        let left = lanes.saturating_add(NUMBERS).saturating_add(16);
        let right = left.saturating_add(pixels(line)).saturating_add(16);
        Drawing {
            text: String::new(alloc),
            parties,
            lane,
            room,
            line: left,
            width: right.max(pixels(LEGEND.len()).saturating_add(32)),
            bottom: row_top(history.rows.len()),
        }
    }

    /// Where the line of the party's lane is, or that of a bar to its left.
    fn x(&self, party: u32, slot: usize) -> usize {
        let left = self.lane.saturating_mul(party as usize);
        let line = left.saturating_add(NUMBERS).saturating_add(self.room);
        line.saturating_sub(slot.saturating_mul(SLOT))
    }

    /// Writes the picture's own head, a white ground, the title and what the signs mean.
    fn open(&mut self, capacity: Option<usize>) -> Result<(), AllocError> {
        let (width, height) = (self.width, self.bottom.saturating_add(16));
        write!(
            self.text,
            "<svg xmlns='http://www.w3.org/2000/svg' width='{width}' height='{height}' \
            viewBox='0 0 {width} {height}' font-family='monospace' font-size='13'>\n{HEAD}\
            <rect width='{width}' height='{height}' fill='white'/>\n\
            <text x='16' y='50' fill='#505050'>{LEGEND}</text>\n\
            <text x='16' y='28' font-size='18' fill='#202020'>"
        )?;
        match capacity {
            Some(capacity) => writeln!(self.text, "capacity {capacity}</text>"),
            None => writeln!(self.text, "without limit</text>"),
        }
    }

    /// Writes the heads and the lines of the lanes.
    fn lanes(&mut self) -> Result<(), AllocError> {
        self.text.push_str(LANES)?;
        let (head, bottom) = (TOP.saturating_sub(10), self.bottom);
        for party in 0..self.parties {
            let x = self.x(party, 0);
            writeln!(
                self.text,
                "<path d='M{x} {TOP} L{x} {bottom}'/>\
                <text x='{x}' y='{head}' stroke='none'>party {party}</text>"
            )?;
        }
        let line = self.line;
        writeln!(
            self.text,
            "<text x='{line}' y='{head}' stroke='none'>line</text></g>"
        )
    }

    /// Writes the bar of a wait, from the row in which it began, with a cross at its end where it was lost.
    fn bar(&mut self, wait: &Wait) -> Result<(), AllocError> {
        let party = wait.from.party;
        let (x, lane) = (self.x(party, wait.from.slot), self.x(party, 0));
        let (left, top) = (x.saturating_sub(3), row_foot(wait.from.row));
        let foot = match wait.end {
            Some((row, _)) => row_foot(row),
            None => self.bottom,
        };
        let (height, link) = (foot.saturating_sub(top), lane.saturating_sub(left));
        writeln!(
            self.text,
            "<rect x='{left}' y='{top}' width='6' height='{height}'/>\
            <rect x='{left}' y='{top}' width='{link}' height='2'/>"
        )?;
        if let Some((_, true)) = wait.end {
            let (left, above) = (x.saturating_sub(5), foot.saturating_sub(5));
            writeln!(
                self.text,
                "<path d='M{left} {above} l10 10 m0 -10 l-10 10' stroke='#b85000' stroke-width='2.5'/>"
            )?;
        }
        Ok(())
    }

    /// Writes an arrow: straight between two lanes, and bent to the left within one.
    fn arrow(&mut self, arrow: &Arrow) -> Result<(), AllocError> {
        let (from, to) = (arrow.from, arrow.to);
        let (x1, y1) = (self.x(from.party, from.slot), row_foot(from.row));
        let (x2, y2) = (self.x(to.party, to.slot), row_foot(to.row));
        let bend = x2.min(x1).saturating_sub(26);
        if from.party != to.party {
            return writeln!(self.text, "<path d='M{x1} {y1} L{x2} {y2}'/>");
        }
        writeln!(
            self.text,
            "<path d='M{x1} {y1} C{bend} {y1} {bend} {y2} {x2} {y2}'/>"
        )
    }

    /// Writes an entry: its dot, its number, its words, the line after it, and the line across that it asks for.
    fn entry(&mut self, place: usize, row: &DrawnRow<'_>) -> Result<(), AllocError> {
        let (x, foot, line) = (self.x(row.party, 0), row_foot(place), self.line);
        let (left, y) = (x.saturating_add(8), foot.saturating_sub(7));
        let number = place.saturating_add(1);
        let colour = match row.mark {
            Mark::Refused => "#b85000",
            Mark::Plain | Mark::Seal | Mark::Close => "#14305c",
        };
        let (call, answer, words) = (row.call, row.answer.as_str(), row.line.as_str());
        writeln!(
            self.text,
            "<circle cx='{x}' cy='{foot}' r='3' fill='{colour}' stroke='none'/>\
            <text x='{NUMBERS}' y='{y}' text-anchor='end' fill='#707070'>{number}</text>\
            <text x='{left}' y='{y}' fill='{colour}'>{call} → {answer}</text>\
            <text x='{line}' y='{y}'>{words}</text>"
        )?;
        let dashes = match row.mark {
            Mark::Close => "none",
            Mark::Seal => "9 5",
            Mark::Plain | Mark::Refused => return Ok(()),
        };
        let (right, below) = (self.width.saturating_sub(16), foot.saturating_add(7));
        writeln!(
            self.text,
            "<path d='M16 {below} L{right} {below}' stroke='#14305c' stroke-width='2' stroke-dasharray='{dashes}'/>"
        )
    }
}

/// Draws a history as a picture.
///
/// The error says that memory was refused.
pub fn draw(alloc: Global, history: &DrawnHistory<'_>) -> Result<String, AllocError> {
    let mut drawing = Drawing::of(alloc, history);
    drawing.open(history.ways.capacity)?;
    drawing.lanes()?;
    drawing.text.push_str(BARS)?;
    for wait in &history.ways.waits {
        drawing.bar(wait)?;
    }
    drawing.text.push_str(ARROWS)?;
    for arrow in &history.ways.arrows {
        drawing.arrow(arrow)?;
    }
    drawing.text.push_str(ENTRIES)?;
    for (place, row) in history.rows.iter().enumerate() {
        drawing.entry(place, row)?;
    }
    drawing.text.push_str("</g></svg>\n")?;
    Ok(drawing.text)
}
