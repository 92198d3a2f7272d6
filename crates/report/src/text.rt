// A short text in fixed memory, which grows at its end.
ghost use Rattle.std.specs.Prelude.{◌≡◌, [], ◌∷◌, ◌++◌, ◌+◌, ◌≤◌, ◌<◌, length};
ghost use Rattle.report.specs.Lines.{room, longest_number, longest_line, digit, decimal, line};

use std::convert::AsSlice;
use std::marker::Model;

// The bytes that a text has room for: the seven lines take no more.
pub const ROOM: usize = 96;

// The first `len` bytes, and 0 in every byte after them. A contract sees the text: the list of its bytes.
#[derive(Drop)]
pub struct Text {
    bytes: [u8; ROOM],
    len: usize,
}

impl Model for Text {
    ghost use Rattle.std.specs.Prelude.{List, ℕ};

    ghost Value = { List ℕ };

    ghost use Rattle.report.specs.Text.{text_of, IsWhole};

    ghost view = { text_of };

    ghost invariant = { IsWhole };
}

// The number of the code is that of the definitions.
fn same_numbers()
    ensures { ROOM ≡ room }
{}

impl Text {
    // An empty text.
    pub(crate) fn new() -> Text
        ensures { result ≡ [] }
    {
        Text {
            bytes: [0; ROOM],
            len: 0,
        }
    }

    // One byte more.
    pub(crate) fn push(&mut self, b: u8)
        requires { length self.old < room }
        ensures { self.new ≡ self.old ++ b ∷ [] }
    {
        self.bytes[self.len] = b;
        self.len += 1;
    }

    // More bytes.
    pub(crate) fn push_bytes(&mut self, more: &[u8])
        requires { length self.old + length more.now ≤ room }
        ensures { self.new ≡ self.old ++ more.now }
    {
        let end = self.len + more.len();
        self.bytes[self.len..end].copy_from_slice(more);
        self.len = end;
    }

    // One digit more.
    fn push_digit(&mut self, d: u16)
        requires room_left { length self.old < room }
        requires one { d < 10 }
        ensures { self.new ≡ self.old ++ digit d ∷ [] }
    {
        self.push(b'0' + d as u8);
    }

    // A number in decimal digits.
    pub(crate) fn push_number(&mut self, v: u16)
        requires room_left { length self.old + longest_number ≤ room }
        requires three { v < 1000 }
        ensures { self.new ≡ self.old ++ decimal v }
    {
        if v >= 100 {
            self.push_digit(v / 100);
        }
        if v >= 10 {
            self.push_digit(v / 10 % 10);
        }
        self.push_digit(v % 10);
    }

    // The line of dimension p: n live cells, hole number h.
    #[tactic(auto, using(crate::proofs::Growing::lengths))]
    pub(crate) fn push_line(&mut self, p: u16, n: u16, h: u16)
        requires room_left { length self.old + longest_line ≤ room }
        requires three { (p < 1000) × (n < 1000) × (h < 1000) }
        ensures { self.new ≡ self.old ++ line p n h }
    {
        self.push_number(p);
        self.push(b' ');
        self.push_number(n);
        self.push(b' ');
        self.push_number(h);
        self.push(b'\n');
    }
}

impl AsSlice<u8> for Text {
    ghost items = { λ text. text };

    fn as_slice(&self) -> &[u8] {
        &self.bytes[..self.len]
    }
}
