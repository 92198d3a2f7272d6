// What the program prints, as a function from bytes to bytes: the seven lines of a sketch, or one line with a refusal's number.
#![tactic(auto)]

ghost use Rattle.std.specs.Prelude.{◌≡◌, ℕ, ◌≤◌, ◌<◌, ◌↔◌, length, get_or, IsTrue, IsNone, IfSome};
ghost use Rattle.table.specs.Kind.{capacity, top};
ghost use Rattle.table.specs.Table.{Valid};
ghost use Rattle.calls.specs.Numbers.{number_of};
ghost use Rattle.complex.specs.Cells.{cells};
ghost use Rattle.rows.specs.Rows.{evidence_words};
ghost use Rattle.report.specs.Lines.{lines_of, refused_line, room};
ghost use Rattle.report.specs.Report.{no_sketch, HoleLines, Reports};
ghost use Rattle.sketch.specs.Read.{size_in};
ghost use Rattle.report.specs.Making.{Told};

mod text;

use calls::Refusal;
use checker::Counts;
use table::Table;
pub use text::{ROOM, Text};

// The seven lines.
#[tactic(auto, using(crate::proofs::Growing::lengths, sketch::proofs::Pieces::pieces_zero, sketch::proofs::Pieces::pieces_more), unfolding(crate::specs::Lines::lines_of))]
fn lines(counts: &Counts) -> Text
    requires few_cells { (p : ℕ) → p ≤ top → get_or counts.now.cells p 0 ≤ capacity }
    requires few_holes { (p : ℕ) → p ≤ top → get_or counts.now.holes p 0 ≤ capacity }
    ensures text { result ≡ lines_of (λ p. get_or counts.now.cells p 0) (λ p. get_or counts.now.holes p 0) }
    ensures short { length result < room }
{
    let mut text = Text::new();
    for p in 0..Table::DIMENSIONS {
        text.push_line(p as u16, counts.cells[p], counts.holes[p]);
    }
    text
}

// The word of a refusal and its number.
#[tactic(auto, using(crate::proofs::Growing::lengths), unfolding(crate::specs::Lines::refused_line))]
pub fn refused(why: Refusal) -> Text
    ensures text { result ≡ refused_line (number_of why) }
    ensures short { length result < room }
{
    let mut text = Text::new();
    text.push_bytes(b"refused ");
    text.push_number(why.number() as u16);
    text.push(b'\n');
    text
}

// The lines of a valid table: evidence is made for it, checked, and counted.
fn count_holes(t: &[u16], evidence: &mut [u64]) -> Text
    requires valid { Valid t.now }
    requires evidence_len { length evidence.old ≡ evidence_words (cells t.now) }
    ensures hole_lines { HoleLines t.now result }
    ensures short { length result < room }
{
    let mut additions = [0; Table::DIMENSIONS];
    reducer::reduce(t, evidence, &mut additions).unwrap();
    let counts = checker::check(t, evidence).unwrap();
    lines(&counts)
}

// Reads the file into the table, and tells what came of it.
fn tell(file: &[u8], t: &mut [u16], evidence: &mut [u64]) -> Text
    requires { length evidence.old ≡ evidence_words (cells t.old) }
    ensures told { Told t.old file.now result }
    ensures short { length result < room }
{
    match reader::read(t, file) {
        Ok(()) => count_holes(t, evidence),
        Err(why) => refused(why),
    }
}

// The number of cells of a file's table, unless the file is too long, or shorter than a table of contents, or names no such number.
#[tactic(auto, using(std::proofs::lemmas::Bool::Decides::nat_tests), unfolding(crate::specs::Report::no_sketch))]
fn size(file: &[u8]) -> Option<usize>
    ensures none { IsNone result ↔ IsTrue (no_sketch file.now) }
    ensures some { IfSome result (λ n. (n ≡ size_in file.now) × (n ≤ capacity)) }
{
    if !(sketch::CONTENTS..=sketch::LONGEST).contains(&file.len()) {
        return None;
    }
    let n = sketch::size_in(file);
    if (1..=Table::CAPACITY).contains(&n) {
        Some(n)
    } else {
        None
    }
}

// What is said of a file. The text stays inside its bytes, so that a caller can lend them, and no byte stands after it.
pub fn report(file: &[u8]) -> Text
    ensures reports { Reports file.now result }
    ensures short { length result < room }
{
    let Some(n) = size(file) else {
        return refused(Refusal::BadContents);
    };
    let words = n * Table::WORDS;
    let row_words = n * bitset::words_for(n);
    let mut table = [Table::FREE; Table::CAPACITY * Table::WORDS];
    let mut evidence = [0; Table::CAPACITY * bitset::FULL];
    tell(file, &mut table[..words], &mut evidence[..row_words])
}
