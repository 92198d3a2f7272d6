// The scanner of a part list: one number, one line and the count line at a place of a lent text, on any bytes at all. Each reader
// answers what it read and the place of the byte after it.
#![tactic(auto)]

ghost use Rattle.std.specs.Prelude.{◌≡◌, ◌≤◌, ◌<◌, List, ℕ, [], ◌∷◌, ◌++◌, length, take};
ghost use Rattle.partlist.specs.Text.{longest_line};
ghost use Rattle.partlist.specs.Indices.{line_fits};
ghost use Rattle.lines.specs.Scans.{DigitIs, NumberAt, LineAt, CountAt, ScanIs};

use calls::Refusal;
use std::marker::Model;

const MOST_DIGITS: usize = 5;

const LONGEST_LINE: usize = 7;

// The value of a digit.
fn digit_of(c: u8) -> Option<u32>
    ensures { DigitIs c result }
{
    match c {
        b'0'..=b'9' => Some(u32::from(c - b'0')),
        _ => None,
    }
}

// The number at a place of the text. A byte that is no digit must follow it.
pub fn read_number(text: &[u8], at: usize) -> Option<(u32, usize)>
    requires { at ≤ length text.now }
    ensures { NumberAt text.now at result }
{
    let mut v = 0;
    for (k, &c) in text[at..].iter().enumerate() {
        let Some(d) = digit_of(c) else {
            return (k > 0).then_some((v, at + k));
        };
        // A sixth digit, or one more after a leading zero.
        if k == MOST_DIGITS || (k > 0 && v == 0) {
            return None;
        }
        v = v * 10 + d;
    }
    None
}

// The numbers of a line, at most 7.
#[derive(Drop)]
pub struct Line {
    numbers: [u32; LONGEST_LINE],
    count: usize,
}

impl Model for Line {
    ghost Value = { List ℕ };

    ghost view = { λ l. take l.count l.numbers };

    ghost invariant = { λ l. l.count ≤ longest_line };
}

impl Line {
    fn new() -> Self
        ensures { result ≡ [] }
    {
        Line {
            numbers: [0; LONGEST_LINE],
            count: 0,
        }
    }

    fn push(&mut self, v: u32)
        requires { length self.old < longest_line }
        ensures { self.new ≡ self.old ++ v ∷ [] }
    {
        self.numbers[self.count] = v;
        self.count += 1;
    }

    pub fn numbers(&self) -> &[u32]
        ensures { result.now ≡ self.now }
    {
        &self.numbers[..self.count]
    }

    // Whether the numbers are all below n and none is repeated.
    fn fits(&self, n: u32) -> bool
        ensures { result ≡ line_fits n self.now }
    {
        let numbers = self.numbers();
        numbers
            .iter()
            .enumerate()
            .all(|(i, v)| *v < n && !numbers[..i].contains(v))
    }
}

// The line at a place of the text: 1 to 7 numbers, one space between, and a newline.
pub fn read_line(text: &[u8], at: usize) -> Option<(Line, usize)>
    requires { at ≤ length text.now }
    ensures { LineAt text.now at result }
{
    let mut line = Line::new();
    let mut i = at;
    for _n in 0..LONGEST_LINE {
        let (v, end) = read_number(text, i)?;
        line.push(v);
        i = end + 1;
        match text[end] {
            b'\n' => return Some((line, i)),
            b' ' => {}
            _ => return None,
        }
    }
    None
}

// The count line: one number alone.
pub fn read_count(text: &[u8]) -> Option<(u32, usize)>
    ensures { CountAt text.now result }
{
    let (n, end) = read_number(text, 0)?;
    (text[end] == b'\n').then_some((n, end + 1))
}

// One scan of the whole text: its count, and the place where its first line of indices begins. A malformed line ends it at once; an
// index that does not fit is remembered, since a malformed line may still come.
pub fn scan_text(text: &[u8]) -> Result<(u32, usize), Refusal>
    ensures { ScanIs text.now result }
{
    let (n, start) = read_count(text).ok_or(Refusal::BadText)?;
    let mut at = start;
    let mut fit = true;
    // Each line tells where the next one begins.
    while at < text.len() {
        let (line, next) = read_line(text, at).ok_or(Refusal::BadText)?;
        fit = fit && line.fits(n);
        at = next;
    }
    if fit {
        Ok((n, start))
    } else {
        Err(Refusal::BadIndex)
    }
}
