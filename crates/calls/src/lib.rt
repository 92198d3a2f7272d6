// Why a call is refused: the published list, with the one word in which C sees a refusal. A call answers `Result<_, Refusal>`. Every
// crate with a call stands on this one, and it knows no table.
#![tactic(auto)]

ghost use Rattle.std.specs.Prelude.{◌≡◌, ◌≤◌};
ghost use Rattle.calls.specs.Numbers.{number_of};
ghost use Rattle.calls.specs.Packed.{breach_bits, packed_of};

// Where a table is broken: the record of a cell; a cell's face, by its place; or the law at a cell, by the pair of places j and l.
#[derive(Clone, Copy)]
pub enum Breach {
    Record(usize),
    Face(usize, usize),
    Law(usize, usize, usize),
}

// Why a call is refused: one case for each number of the published list. A table that is not valid goes with its first breach, and the
// two rules of evidence name the row at fault.
#[derive(Clone, Copy)]
pub enum Refusal {
    Length,
    Invalid(Breach),
    NotLive,
    SameCell,
    DimensionsDiffer,
    FacesDiffer,
    NotClosed,
    TopMarked,
    NoRoom,
    TooLarge,
    Misplaced,
    NoSuchPlace,
    RuleA(u16),
    RuleB(u16),
    BadContents,
    BadNumber,
    BadText,
    BadIndex,
}

// The fields of the word that C sees: the kind of a breach, its places j and l, and the cell begin at these bits, and a place and a cell
// have room for so many numbers.
const KIND: u32 = 256;

const PLACE: u32 = 1024;

const SECOND: u32 = 8192;

const CELL: u32 = 65536;

const PLACES: usize = 8;

const CELLS: usize = 65536;

impl Breach {
    // The bits of a breach in that word. A remainder keeps each number in its own bits.
    fn bits(self) -> u32
        ensures { (result ≡ breach_bits self) × (result ≤ 4294967040) }
    {
        match self {
            Breach::Record(c) => KIND + (c % CELLS) as u32 * CELL,
            Breach::Face(c, j) => 2 * KIND
                + (j % PLACES) as u32 * PLACE
                + (c % CELLS) as u32 * CELL,
            Breach::Law(c, j, l) => {
                let places = (j % PLACES) as u32 * PLACE + (l % PLACES) as u32 * SECOND;
                3 * KIND + places + (c % CELLS) as u32 * CELL
            }
        }
    }
}

impl Refusal {
    // Its number in the published list.
    pub fn number(self) -> u32
        ensures { result ≡ number_of self }
    {
        u32::from(self) % 256
    }
}

// A refusal in the one word that C sees: its number in the lowest eight bits, above them the breach of a table, or the row that a rule of
// evidence names.
impl From<Refusal> for u32 {
    ghost from_gives = { λ r w. w ≡ packed_of r };

    fn from(r: Refusal) -> u32 {
        match r {
            Refusal::Length => 1,
            Refusal::Invalid(b) => 2 + b.bits(),
            Refusal::NotLive => 3,
            Refusal::SameCell => 4,
            Refusal::DimensionsDiffer => 5,
            Refusal::FacesDiffer => 6,
            Refusal::NotClosed => 7,
            Refusal::TopMarked => 8,
            Refusal::NoRoom => 9,
            Refusal::TooLarge => 10,
            Refusal::Misplaced => 11,
            Refusal::NoSuchPlace => 12,
            Refusal::RuleA(c) => 13 + u32::from(c) * CELL,
            Refusal::RuleB(c) => 14 + u32::from(c) * CELL,
            Refusal::BadContents => 15,
            Refusal::BadNumber => 16,
            Refusal::BadText => 17,
            Refusal::BadIndex => 18,
        }
    }
}
