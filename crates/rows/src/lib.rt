// Rows of evidence: whether it has the length for a table, where a row lies, the faces of a cell added into a set, and a row's boundary
// mod 2. These are parts of reducer and checker, which show what each one asks; none is a public call.
#![tactic(auto)]

ghost use Rattle.std.specs.Prelude.{◌≡◌, true, ◌<◌, length};
ghost use Rattle.homology.specs.Holes.{boundary};
ghost use Rattle.complex.specs.Cells.{cells};
ghost use Rattle.bitset.specs.Bits.{full_width};
ghost use Rattle.rows.specs.Rows.{evidence_words, row_of, rows, SetIs, FacesAdded, RowLive};
ghost use Rattle.rows.specs.Lengths.{lengths_fit};

use table::Table;
use view::View;

mod adding;
pub mod view;

pub use adding::add_faces;

// Whether the words are a table's and the evidence has the length for it.
pub fn lengths_fit(t: &[u16], evidence: &[u64]) -> bool
    ensures { result ≡ lengths_fit t.now evidence.now }
{
    if !Table::fits(t) {
        return false;
    }
    let n = Table::room(t);
    evidence.len() == n * bitset::words_for(n)
}

// Row c of the evidence, where it lies.
pub fn row<'a>(t: &[u16], evidence: &'a [u64], c: usize) -> &'a [u64]
    requires evidence_len { length evidence.now ≡ evidence_words (cells t.now) }
    requires c_bound { c < (cells t.now).size }
    ensures { result.now ≡ row_of (cells t.now) evidence.now c }
{
    bitset::row(evidence, c, bitset::words_for(view::size(t)))
}

// Evidence of the length for a table: a row of words for each number.
#[derive(Clone, Copy)]
pub struct Evidence<'a> {
    pub view: View<'a>,
    pub words: &'a [u64],
    ghost fits: { length words.now ≡ evidence_words (cells view.words.now) },
}

impl<'a> Evidence<'a> {
    ghost use Rattle.rows.specs.Seen.{cells_of};

    // Row c, where it lies.
    pub fn row(self, c: usize) -> &'a [u64]
        requires { c < (cells_of self.view).size }
        ensures { result.now ≡ row_of (cells_of self.entry.view) self.entry.words.now c }
    {
        row(self.view.words, self.words, c)
    }

    // The boundary mod 2 of a row whose cells are live: every pair of a cell in the row and a face place counted.
    pub fn row_boundary(self, c: usize) -> [u64; bitset::FULL]
        requires c_bound { c < (cells_of self.view).size }
        requires row_live { RowLive (cells_of self.view) self.words.now c }
        ensures { SetIs result (boundary (cells_of self.entry.view) (rows (cells_of self.entry.view) self.entry.words.now c)) }
    {
        let mut b = [0; bitset::FULL];
        for (w, word) in self.row(c).iter().enumerate() {
            adding::add_word(self.view, w, *word, &mut b);
        }
        b
    }
}
