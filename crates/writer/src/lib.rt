// The sketch file's writer: the contents, then the bodies, into a lent target. Where each body starts is known from the counts, so one
// pass over the cells fills them all. An inner function takes the place where it starts and answers the place after its last byte.
#![tactic(auto)]

ghost use Rattle.std.specs.Prelude.{◌≡◌, ◌+◌, ◌*◌, ◌≤◌, ◌<◌, length};
ghost use Rattle.std.proofs.lemmas.List.Edits.{sets};
ghost use Rattle.table.specs.Kind.{capacity, top, dimensions};
ghost use Rattle.table.specs.Table.{cells_of, count_of, Sized};
ghost use Rattle.calls.specs.Calls.{Ends};
ghost use Rattle.sketch.specs.Form.{two, four, pieces, entry_size, contents_size, record_size, body_start, longest};
ghost use Rattle.sketch.specs.Written.{cell_bytes, body_of, contents_of, file_of};
ghost use Rattle.writer.specs.Put.{Put, Counted, Started, in_array, entry};
ghost use Rattle.writer.specs.Write.{write_answer, write_leaves};

use calls::Refusal;
use table::Table;

// The bodies' starts, and the file's length.
const STARTS: usize = Table::DIMENSIONS + 1;

// Puts these bytes into the target from a place on.
fn put<const N: usize>(target: &mut [u8], at: usize, bytes: [u8; N]) -> usize
    requires { at + N ≤ length target.old }
    ensures { Put target.old at bytes.entry result target.new }
{
    let end = at + N;
    target[at..end].copy_from_slice(&bytes);
    end
}

// An entry of the contents: the count, then where the body starts.
fn put_entry(target: &mut [u8], at: usize, count: u16, start: usize) -> usize
    requires { (at + entry_size ≤ length target.old) × (start ≤ longest) }
    ensures { Put target.old at (entry count start) result target.new }
{
    let middle = put(target, at, count.to_le_bytes());
    put(target, middle, (start as u32).to_le_bytes())
}

// Where the body after this one starts.
fn next_start(start: usize, count: usize, p: usize) -> usize
    requires { (p ≤ top) × (start + count * record_size p ≤ longest) }
    ensures { result ≡ start + count * record_size p }
{
    start + count * sketch::record_size(p as u16)
}

// Where the body of each dimension starts, and after them the length of the file.
fn body_starts(counts: [u16; Table::DIMENSIONS]) -> [usize; STARTS]
    requires { body_start (in_array counts) dimensions ≤ longest }
    ensures { Started (in_array counts) result }
{
    let mut starts = [sketch::CONTENTS; STARTS];
    for (p, count) in counts.iter().enumerate() {
        starts[p + 1] = next_start(starts[p], *count as usize, p);
    }
    starts
}

// The table of contents: N, then the count and the offset of each dimension.
fn put_contents(
    t: &[u16],
    counts: [u16; Table::DIMENSIONS],
    starts: [usize; STARTS],
    target: &mut [u8],
) -> usize
    requires { (Sized t.now) × (Counted t.now counts) × (Started (count_of t.now) starts) × (length (contents_of t.now) ≤ length target.old) }
    ensures { Put target.old 0 (contents_of t.now) result target.new }
{
    let mut end = put(target, 0, (Table::room(t) as u16).to_le_bytes());
    for (p, count) in counts.iter().enumerate() {
        end = put_entry(target, end, *count, starts[p]);
    }
    end
}

// The record of cell c: its number, then its faces.
fn put_cell(t: &[u16], c: usize, target: &mut [u8], at: usize) -> usize
    requires { (c < cells_of t.now) × (cells_of t.now ≤ capacity) × (at + length (cell_bytes t.now c) ≤ length target.old) }
    ensures { Put target.old at (cell_bytes t.now c) result target.new }
{
    let used = Table::used(Table::dim(t, c));
    let mut end = put(target, at, (c as u16).to_le_bytes());
    for j in 0..used {
        end = put(target, end, Table::face(t, c, j).to_le_bytes());
    }
    end
}

// The bodies, in one pass over the cells: each goes where its body has come to.
fn put_bodies(t: &[u16], starts: [usize; STARTS], target: &mut [u8])
    requires { (Started (count_of t.now) starts) × (cells_of t.now ≤ capacity) × (length (file_of t.now) ≤ length target.old) }
    ensures { target.new ≡ sets target.old contents_size (pieces (body_of t.now) dimensions) }
{
    let mut ends = starts;
    for c in 0..Table::room(t) {
        let p = Table::dim(t, c) as usize;
        if p < Table::DIMENSIONS {
            ends[p] = put_cell(t, c, target, ends[p]);
        }
    }
}

// Writes the table as a sketch file and answers its length; no byte after it is touched. Refused with 1, 2, 9, in that order; then
// no byte changes.
pub fn write(t: &[u16], target: &mut [u8]) -> Result<usize, Refusal>
    ensures { Ends (write_answer t.now target.old) (write_leaves t.now target.old) result target.new }
{
    audit::audit(t)?;
    let counts = Table::census(t);
    let starts = body_starts(counts);
    let size = starts[Table::DIMENSIONS];
    if target.len() < size {
        return Err(Refusal::NoRoom);
    }
    put_contents(t, counts, starts, target);
    put_bodies(t, starts, target);
    Ok(size)
}
