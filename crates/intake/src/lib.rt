// Taking a part list in. The table is its own scratch: its records first hold corners, in the order that the cells' numbers have.
// First the points and the lines, each where it belongs; then, from the top down, the facets of every cell; and when the list of
// cells is complete the corners of each cell give way to its faces, from the top down too, since a face stands below its cell.
#![tactic(auto)]

ghost use Rattle.std.specs.Prelude.{true, [], ◌≤◌, ◌<◌};
ghost use Rattle.table.specs.Kind.{capacity};
ghost use Rattle.table.specs.Table.{cells_of};
ghost use Rattle.partlist.specs.Sweep.{points_from};
ghost use Rattle.lines.specs.Scans.{Opens, Scanned};
ghost use Rattle.corners.specs.Scratch.{Kept};
ghost use Rattle.intake.specs.Steps.{Gathers, SweepsCell, Sweeps, FaceNumbers, PutsFaces, Fills};
ghost use Rattle.intake.specs.Import.{import_verdict, import_leaves};
ghost use Rattle.calls.specs.Calls.{Ends};

use calls::Refusal;
use table::{Record, Table};

// Takes the points 0 to n − 1 in. They are the first cells.
fn take_points(t: &mut [u16], n: usize)
    requires { (n ≤ cells_of t.old) × (n ≤ capacity) × Kept (cells_of t.old) t.old [] }
    ensures { Kept (cells_of t.old) t.new (points_from 0 n) }
{
    for c in 0..n {
        let mut faces = [Table::FREE; Table::FACES];
        faces[0] = c as u16;
        Table::put(t, c, Record { dim: 0, faces });
    }
}

// Takes the lines in, whose indices are all below n, after the n points, and answers how many cells there are then.
fn take_lines(t: &mut [u16], text: &[u8], start: usize, n: usize) -> Result<usize, Refusal>
    requires { (n ≤ cells_of t.old) × (n ≤ capacity) × Kept (cells_of t.old) t.old (points_from 0 n) × Opens text.now n start × Scanned text.now n true }
    ensures { Gathers text.now n (cells_of t.old) t.new result }
{
    let mut m = n;
    let mut at = start;
    // Each line tells where the next one begins.
    while at < text.len() {
        // The scan has found a line wherever the text has not ended.
        let (line, next) = lines::read_line(text, at).unwrap();
        m = corners::take_in(t, m, corners::of_line(line.numbers()))?;
        at = next;
    }
    Ok(m)
}

// Takes the facets of cell c in, and answers how many cells there are then. Cell c has moved up by as many as came in. The facets of a
// point and of an edge are points, which are there.
fn take_facets(t: &mut [u16], c: usize, before: usize) -> Result<usize, Refusal>
    requires { (c < before) × (before ≤ cells_of t.old) }
    ensures { SweepsCell (cells_of t.old) t.old t.new c before result }
{
    let cell = Table::record(t, c);
    if cell.dim < 2 {
        return Ok(before);
    }
    let mut m = before;
    for j in 0..Table::used(cell.dim) {
        m = corners::take_in(t, m, corners::facet(cell, j))?;
    }
    Ok(m)
}

// Takes the facets of every cell in, from the top down. Facets of facets come in below, so every part of every line is reached.
fn sweep(t: &mut [u16], before: usize) -> Result<usize, Refusal>
    requires { before ≤ cells_of t.old }
    ensures { Sweeps (cells_of t.old) t.old t.new before result }
{
    let mut m = before;
    let mut c = before;
    // Cell c moves up by as many as come in below it.
    while c > 0 {
        let grown = take_facets(t, c - 1, m)?;
        c = c - 1 + (grown - m);
        m = grown;
    }
    Ok(m)
}

// The faces of cell c: the numbers of its facets, which stand among the cells below it.
fn face_numbers(t: &[u16], c: usize) -> [u16; Table::FACES]
    requires { (c < cells_of t.now) × (c ≤ capacity) }
    ensures { FaceNumbers t.now c result }
{
    let cell = Table::record(t, c);
    let mut numbers = [Table::FREE; Table::FACES];
    for j in 0..Table::used(cell.dim) {
        numbers[j] = corners::number_of(t, c, corners::facet(cell, j));
    }
    numbers
}

// Puts the faces of the first m cells where their corners stood, from the top down: the cells below still have their corners.
fn put_faces(t: &mut [u16], m: usize)
    requires { (m ≤ cells_of t.old) × (m ≤ capacity) }
    ensures { PutsFaces (cells_of t.old) t.old m t.new }
{
    for c in (0..m).rev() {
        let numbers = face_numbers(t, c);
        Table::put_faces(t, c, numbers);
    }
}

// Fills an emptied table from a text that is a part list whose indices fit. Where the cells have no room, what is left in the table is
// scratch.
fn fill(t: &mut [u16], text: &[u8], start: usize, n: usize) -> Result<(), Refusal>
    requires { (cells_of t.old ≤ capacity) × Kept (cells_of t.old) t.old [] × Opens text.now n start × Scanned text.now n true }
    ensures { Fills text.now n (cells_of t.old) t.new result }
{
    if n > Table::room(t) {
        return Err(Refusal::NoRoom);
    }
    take_points(t, n);
    let gathered = take_lines(t, text, start, n)?;
    let m = sweep(t, gathered)?;
    put_faces(t, m);
    Ok(())
}

// Fills the table from a part list. Refused with 1, 17, 18, 9, in that order: with 1 no word changes, with any other every word is the
// free mark.
pub fn import(t: &mut [u16], text: &[u8]) -> Result<(), Refusal>
    ensures { Ends (import_verdict t.old text.now) (import_leaves t.old text.now) result t.new }
{
    audit::empty(t)?;
    let (n, start) = lines::scan_text(text)?;
    if let Err(why) = fill(t, text, start, n as usize) {
        return audit::refused(t, why);
    }
    Ok(())
}
