// The sketch file's reader, on any bytes at all. The table's old contents are not looked at: it is emptied first. Then the contents are
// tested, and the bodies go into the table, record by record: a record that is no longer free has a number of a lower body.
#![tactic(auto)]

ghost use Rattle.std.specs.Prelude.{◌≡◌, true, ◌+◌, ◌*◌, ◌≤◌, ◌<◌, length, replicate, OnOk};
ghost use Rattle.table.specs.Kind.{capacity, dimensions, faces, width, free_mark, used as used_of};
ghost use Rattle.calls.specs.Calls.{verdict, Ends};
ghost use Rattle.sketch.specs.Form.{face_place};
ghost use Rattle.sketch.specs.Read.{contents_fit, described, read_verdict, read_leaves};
ghost use Rattle.reader.specs.Taking.{faces_at, FacesAre, Taken, BodyTaken, filled_grounds};

use calls::Refusal;
use table::{Record, Table};

// Dimensions, 0 to 6.
const DIMENSIONS: u16 = Table::TOP + 1;

// The numbers of the code are those of the definitions.
fn same_numbers()
    ensures { DIMENSIONS ≡ dimensions }
{}

// Whether the file has its contents, with this N, every offset where its body starts, and no byte after the last body.
fn contents_fit(file: &[u8], n: usize) -> bool
    ensures { result ≡ contents_fit n file.now }
{
    if file.len() < sketch::CONTENTS || sketch::size_in(file) != n {
        return false;
    }
    let mut start = sketch::CONTENTS;
    for p in 0..DIMENSIONS {
        if sketch::offset_in(file, p) != start {
            return false;
        }
        start += sketch::count_in(file, p) as usize * sketch::record_size(p);
    }
    start == file.len()
}

// The seven face words of the cell of this many faces whose record stands at this place of the file. Those that it does not use are free.
fn faces_at<const USED: usize>(file: &[u8], at: usize) -> [u16; Table::FACES]
    requires { (at + face_place USED ≤ length file.now) × (USED ≤ faces) }
    ensures { FacesAre result (faces_at file.now USED at) }
{
    let mut r = [Table::FREE; Table::FACES];
    for j in 0..USED {
        r[j] = sketch::two_at(file, at + sketch::face_place(j));
    }
    r
}

// Takes body p in, whose cells have this many faces, record by record, up to the first number that is not in order: it must be at
// least `low`, one above the number before it; it must be inside the table; and its record must be free, else a lower body has it.
fn take_records<const USED: usize>(
    t: &mut [u16],
    file: &[u8],
    n: usize,
    p: u16,
) -> Result<(), Refusal>
    requires { (p < dimensions) × (contents_fit n file.now ≡ true) × (Taken n file.now t.old p 0) × (USED ≡ used_of p) }
    ensures { BodyTaken n file.now p result t.new }
{
    let mut at = sketch::offset_in(file, p);
    let mut low = 0;
    for _ in 0..sketch::count_in(file, p) {
        let c = sketch::two_at(file, at) as usize;
        if c < low || c >= n || Table::dim(t, c) != Table::FREE {
            return Err(Refusal::BadNumber);
        }
        let faces = faces_at::<USED>(file, at);
        Table::put(t, c, Record { dim: p, faces });
        low = c + 1;
        at += sketch::face_place(USED);
    }
    Ok(())
}

// Takes body p in. There is an arm for each number of faces, so that it is a constant: a record is then read by straight code with every
// face at a known place, and not by a loop.
fn take_body(t: &mut [u16], file: &[u8], n: usize, p: u16) -> Result<(), Refusal>
    requires { (p < dimensions) × (contents_fit n file.now ≡ true) × (Taken n file.now t.old p 0) }
    ensures { BodyTaken n file.now p result t.new }
{
    match p {
        0 => take_records::<0>(t, file, n, 0),
        1 => take_records::<2>(t, file, n, 1),
        2 => take_records::<3>(t, file, n, 2),
        3 => take_records::<4>(t, file, n, 3),
        4 => take_records::<5>(t, file, n, 4),
        5 => take_records::<6>(t, file, n, 5),
        _ => take_records::<7>(t, file, n, 6),
    }
}

// Takes every body into an emptied table of n cells, up to the first number that is not in order, and audits the table that they make.
fn fill(t: &mut [u16], file: &[u8], n: usize) -> Result<(), Refusal>
    requires { (contents_fit n file.now ≡ true) × (1 ≤ n) × (n ≤ capacity) × (t.old ≡ replicate (n * width) free_mark) }
    ensures answer { result ≡ verdict (filled_grounds n file.now) }
    ensures table { OnOk result (t.new ≡ described n file.now) }
{
    for p in 0..DIMENSIONS {
        take_body(t, file, n, p)?;
    }
    audit::audit(t)
}

// Fills the table from a sketch file. Refused with 1, 15, 16, 2, in that order: with 1 no word changes, with any other every word is
// the free mark.
pub fn read(t: &mut [u16], file: &[u8]) -> Result<(), Refusal>
    ensures { Ends (read_verdict t.old file.now) (read_leaves t.old file.now) result t.new }
{
    audit::empty(t)?;
    let n = Table::room(t);
    if !contents_fit(file, n) {
        return Err(Refusal::BadContents);
    }
    match fill(t, file, n) {
        Ok(()) => Ok(()),
        Err(r) => audit::refused(t, r),
    }
}
