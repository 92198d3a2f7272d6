// The form of a sketch file in code, once for the crates that write, read and print one: its sizes, the number that stands at a place,
// and where the parts of a record stand. The definitions are in specs/, the way there and back in proofs/.
#![tactic(auto)]

ghost use Rattle.std.specs.Prelude.{◌≡◌, ◌+◌, ◌*◌, ◌≤◌, ◌<◌, length};
ghost use Rattle.table.specs.Kind.{top, dimensions, faces};
ghost use Rattle.sketch.specs.Form.{two_at, four_at, entry_size, contents_size, offset_place, record_size, face_place, longest};
ghost use Rattle.sketch.specs.Read.{size_in, count_in};

use table::Table;

// The bytes of an entry of the contents: a count in 2, an offset in 4.
pub const ENTRY: usize = 6;

// The bytes of the contents: N in 2, then an entry for each dimension.
pub const CONTENTS: usize = 2 + Table::DIMENSIONS * ENTRY;

// The most bytes of a file: a full table whose every record has all faces.
pub const LONGEST: usize = CONTENTS + Table::CAPACITY * (2 + 2 * Table::FACES);

// The numbers of the code are those of the definitions.
fn same_numbers()
    ensures value { ENTRY ≡ entry_size }
    ensures value_2 { CONTENTS ≡ contents_size }
    ensures value_3 { LONGEST ≡ longest }
{}

// The number in 2 bytes at place i, the low byte first.
#[tactic(auto, unfolding(crate::specs::Form::two_at))]
pub fn two_at(file: &[u8], i: usize) -> u16
    requires { i + 2 ≤ length file.now }
    ensures { result ≡ two_at file.now i }
{
    u16::from_le_bytes([file[i], file[i + 1]])
}

// The number in 4 bytes at place i, the low byte first.
#[tactic(auto, unfolding(crate::specs::Form::four_at))]
fn four_at(file: &[u8], i: usize) -> u32
    requires { i + 4 ≤ length file.now }
    ensures { result ≡ four_at file.now i }
{
    u32::from_le_bytes([file[i], file[i + 1], file[i + 2], file[i + 3]])
}

// The number of cells that the contents name.
pub fn size_in(file: &[u8]) -> usize
    requires { contents_size ≤ length file.now }
    ensures { result ≡ size_in file.now }
{
    two_at(file, 0) as usize
}

// The count of p-cells that the contents name.
#[tactic(auto, unfolding(crate::specs::Read::count_in))]
pub fn count_in(file: &[u8], p: u16) -> u16
    requires { (contents_size ≤ length file.now) × (p < dimensions) }
    ensures { result ≡ count_in file.now p }
{
    two_at(file, 2 + p as usize * ENTRY)
}

// The offset that the contents give body p.
pub fn offset_in(file: &[u8], p: u16) -> usize
    requires { (contents_size ≤ length file.now) × (p < dimensions) }
    ensures { result ≡ four_at file.now (offset_place p) }
{
    four_at(file, 4 + p as usize * ENTRY) as usize
}

// Where face j stands in a record. A record of j faces ends there.
pub fn face_place(j: usize) -> usize
    requires { j ≤ faces }
    ensures { result ≡ face_place j }
{
    2 + 2 * j
}

// The bytes of a p-cell's record.
pub fn record_size(p: u16) -> usize
    ensures { (result ≡ record_size p) × (result ≤ record_size top) }
{
    face_place(Table::used(p))
}
