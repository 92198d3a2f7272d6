// The table kind: its four numbers, and the only way into its words. A table is lent as a slice of
// 16-bit words; a function that reads or writes a record asks that it lies inside, and none looks further. Those are parts for
// the crates above, which show what each one asks; no public call is here.
#![tactic(auto)]

ghost use Rattle.std.specs.Prelude.{◌≡◌, ◌+◌, ◌*◌, ◌≤◌, ◌<◌, length, get_or, replicate, eqb};
ghost use Rattle.counting.specs.Counting.{pick, how_many, listed};
ghost use Rattle.table.specs.Kind.{capacity, top, dimensions, faces, width, free_mark, used};
ghost use Rattle.table.specs.Table.{cells_of, dim as dim_of, face as face_of, faces_of, sized, live as live_in, is_cell};
ghost use Rattle.table.specs.Records.{Stored, ShiftedUp};

// A record by value: its dimension or the free mark, and the seven face words. Records are ordered as their words are, the dimension
// first.
#[derive(Clone, Copy, PartialEq, Eq, PartialOrd, Ord)]
pub struct Record {
    pub dim: u16,
    pub faces: [u16; Table::FACES],
}

impl Record {
    pub const FREE: Record = Record {
        dim: Table::FREE,
        faces: [Table::FREE; Table::FACES],
    };
}

// The table kind. It holds nothing: a table is the lent words.
#[derive(Drop)]
pub struct Table {}

impl Table {
    pub const CAPACITY: usize = 512;

    pub const TOP: u16 = 6;

    pub const DIMENSIONS: usize = 7;

    pub const FACES: usize = 7;

    pub const FREE: u16 = 65535;

    pub const WORDS: usize = Table::FACES + 1;

    // Whether so many words are a table's: those of 1 to 512 whole records.
    #[tactic(auto, unfolding(crate::specs::Table::sized))]
    pub fn fits(t: &[u16]) -> bool
        ensures { result ≡ sized t.now }
    {
        let n = Table::room(t);
        t.len() % Table::WORDS == 0 && 1 <= n && n <= Table::CAPACITY
    }

    // How many records the words hold, whether their number is that of a table or not.
    pub fn room(t: &[u16]) -> usize
        ensures { result ≡ cells_of t.now }
    {
        t.len() / Table::WORDS
    }

    // How many face words a record with this word 0 uses.
    pub fn used(p: u16) -> usize
        ensures { (result ≡ used p) × (result ≤ faces) }
    {
        match p {
            1..=Table::TOP => p as usize + 1,
            _ => 0,
        }
    }

    // Word 0 of record c: its dimension, or the free mark.
    pub fn dim(t: &[u16], c: usize) -> u16
        requires { c < cells_of t.now }
        ensures { result ≡ dim_of t.now c }
    {
        t[c * Table::WORDS]
    }

    // Face j of record c.
    pub fn face(t: &[u16], c: usize, j: usize) -> u16
        requires { (c < cells_of t.now) × (j < faces) }
        ensures { result ≡ face_of t.now c j }
    {
        t[c * Table::WORDS + (1 + j)]
    }

    // All seven face words of record c, by value.
    pub fn faces(t: &[u16], c: usize) -> [u16; Table::FACES]
        requires { c < cells_of t.now }
        ensures { result ≡ faces_of t.now c }
    {
        let at = c * Table::WORDS;
        [
            t[at + 1],
            t[at + 2],
            t[at + 3],
            t[at + 4],
            t[at + 5],
            t[at + 6],
            t[at + 7],
        ]
    }

    // Record c, by value.
    pub fn record(t: &[u16], c: usize) -> Record
        requires { c < cells_of t.now }
        ensures { (result.dim ≡ dim_of t.now c) × (result.faces ≡ faces_of t.now c) }
    {
        Record {
            dim: Table::dim(t, c),
            faces: Table::faces(t, c),
        }
    }

    // Whether c is a live cell.
    #[tactic(auto, unfolding(crate::specs::Table::live))]
    pub fn live(t: &[u16], c: usize) -> bool
        ensures { result ≡ live_in t.now c }
    {
        c < Table::room(t) && Table::dim(t, c) <= Table::TOP
    }

    // How many live cells there are of each dimension, in one pass.
    pub fn census(t: &[u16]) -> [u16; Table::DIMENSIONS]
        requires { cells_of t.now ≤ capacity }
        ensures { result ≡ listed dimensions (λ p. how_many (is_cell t.now p) (cells_of t.now)) }
    {
        let mut counts = [0; Table::DIMENSIONS];
        for c in 0..Table::room(t) {
            let p = Table::dim(t, c) as usize;
            if p < Table::DIMENSIONS {
                counts[p] += 1;
            }
        }
        counts
    }

    // Writes face j of record c, and nothing else.
    pub fn put_face(t: &mut [u16], c: usize, j: usize, x: u16)
        requires { (c < cells_of t.old) × (j < faces) }
        ensures { Stored c (record { dim = dim_of t.old c; face = λ l. pick (eqb l j) x (face_of t.old c l) }) t.old t.new }
    {
        let at = c * Table::WORDS;
        t[at + (1 + j)] = x;
    }

    // Writes the seven face words f into record c, and leaves the rest of the record alone.
    pub fn put_faces(t: &mut [u16], c: usize, f: [u16; Table::FACES])
        requires { c < cells_of t.old }
        ensures { Stored c (record { dim = dim_of t.old c; face = λ j. get_or f j 0 }) t.old t.new }
    {
        for (j, x) in f.iter().enumerate() {
            Table::put_face(t, c, j, *x);
        }
    }

    // Writes r as record c, and nothing else.
    pub fn put(t: &mut [u16], c: usize, r: Record)
        requires { c < cells_of t.old }
        ensures { Stored c (record { dim = r.dim; face = λ j. get_or r.faces j 0 }) t.old t.new }
    {
        Table::put_faces(t, c, r.faces);
        let at = c * Table::WORDS;
        t[at] = r.dim;
    }

    // Moves records k to m − 1 up by one. Record k stays as it was.
    pub fn shift_up(t: &mut [u16], k: usize, m: usize)
        requires { (k ≤ m) × (m < cells_of t.old) }
        ensures { ShiftedUp k m t.old t.new }
    {
        let start = k * Table::WORDS;
        let n = (m - k) * Table::WORDS;
        t[start..].copy_within(..n, Table::WORDS);
    }
}

// The numbers of the code are those of the definitions.
fn same_numbers()
    ensures capacity_value { Table.CAPACITY ≡ capacity }
    ensures top_value { Table.TOP ≡ top }
    ensures dimensions_value { Table.DIMENSIONS ≡ dimensions }
    ensures faces_value { Table.FACES ≡ faces }
    ensures width_value { Table.WORDS ≡ width }
    ensures free_mark_value { Table.FREE ≡ free_mark }
    ensures free_dim_value { Record.FREE.dim ≡ free_mark }
    ensures free_faces_value { Record.FREE.faces ≡ replicate faces free_mark }
{}
