// What is asked of the marks beside their length: each marks a live cell, every face of a marked cell is marked, and none marks a
// cell of the top dimension. One pass over the cells up to the last mark. Parts of the call, seen in this crate alone.
ghost use Rattle.std.specs.Prelude.{◌≡◌, ◌≤◌, ◌<◌, length};
ghost use Rattle.table.specs.Kind.{capacity, used};
ghost use Rattle.table.specs.Table.{cells_of, dim};
ghost use Rattle.counting.specs.Counting.{some_has};
ghost use Rattle.calls.specs.Calls.{verdict};
ghost use Rattle.cone.specs.Cone.{mark_grounds};
ghost use Rattle.cone.specs.Parts.{MarkedBelow, open_face};

use calls::Refusal;
use table::Table;

// The number after the last mark, 0 where nothing is marked.
pub fn marks_end(marks: &[u64]) -> usize
    requires { length marks.now ≤ capacity }
    ensures { MarkedBelow marks.now result }
{
    match bitset::largest(marks) {
        Some(last) => last + 1,
        None => 0,
    }
}

// Whether a face of cell c is not marked.
fn face_open(t: &[u16], marks: &[u64], c: usize) -> bool
    requires { c < cells_of t.now }
    ensures { result ≡ some_has (open_face t.now marks.now c) (used (dim t.now c)) }
{
    let used = Table::used(Table::dim(t, c));
    let faces = Table::faces(t, c);
    let mut leaks = false;
    for f in &faces[..used] {
        leaks |= !bitset::has(marks, *f as usize);
    }
    leaks
}

// Refused with 3, 7 or 8 for the marks, in that order: a mark on no live cell refuses at once, the other two faults are kept until
// every mark is known to be on a live cell.
pub fn asked(t: &[u16], marks: &[u64]) -> Result<(), Refusal>
    requires { length marks.now ≤ capacity }
    ensures { result ≡ verdict (mark_grounds t.now marks.now) }
{
    let end = marks_end(marks);
    if end > Table::room(t) {
        return Err(Refusal::NotLive);
    }
    let mut leaks = false;
    let mut top = false;
    for c in 0..end {
        if bitset::has(marks, c) {
            if !Table::live(t, c) {
                return Err(Refusal::NotLive);
            }
            leaks |= face_open(t, marks, c);
            top |= Table::dim(t, c) == Table::TOP;
        }
    }
    if leaks {
        return Err(Refusal::NotClosed);
    }
    if top {
        return Err(Refusal::TopMarked);
    }
    Ok(())
}
