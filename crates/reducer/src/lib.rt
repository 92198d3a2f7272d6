// The reducer: makes evidence for a hole count. It keeps the boundaries of finished rows, each at its largest cell, beside the number
// of the row; taking boundaries anew for each addition would cost two orders of magnitude on the worst table. It asks no heap.
#![tactic(auto)]

ghost use Rattle.std.specs.Prelude.{◌≡◌, true, ◌*◌, ◌≤◌, ◌<◌, length};
ghost use Rattle.table.specs.Kind.{capacity};
ghost use Rattle.bitset.specs.Bits.{bits, full_width};
ghost use Rattle.rows.specs.Rows.{row_width, evidence_words};
ghost use Rattle.rows.specs.Seen.{cells_of};
ghost use Rattle.reducer.specs.Reduce.{Reduces, Reduction, reduce_verdict};
ghost use Rattle.reducer.specs.Work.{small, middle_words, middle, Roomy, Ready, Begun, Finished, Blank, Fresh};

use calls::Refusal;
use rows::view::View;
use table::Table;

// The most cells of a table whose rows have one word.
const SMALL: usize = 64;

// The most words in a row of a table of middle size, and the most cells of such a table.
const MIDDLE_WORDS: usize = 4;

const MIDDLE: usize = MIDDLE_WORDS * SMALL;

// The words of the boundaries of all rows, for a table of middle size and for the largest.
const MIDDLE_KEPT: usize = MIDDLE * MIDDLE_WORDS;

const LARGE_KEPT: usize = Table::CAPACITY * bitset::FULL;

// The boundaries of finished rows, each kept at its largest cell, and beside it the number of the row.
#[derive(Drop)]
struct Kept<'a> {
    words: &'a mut [u64],
    owner: &'a mut [Option<u16>],
}

impl<'a> Kept<'a> {
    // Finishes row c, whose boundary is b: while an earlier row has the same largest cell, it is added. Answers the additions made.
    // Of the table only the contract speaks.
    fn finish_row(
        &mut self,
        view: View<'_>,
        c: usize,
        w: usize,
        b: &mut [u64],
        evidence: &mut [u64],
    ) -> u64
        requires c_bound { c < (cells_of view).size }
        requires w_value { w ≡ row_width (cells_of view) }
        requires begun { Begun (cells_of view) c b.old evidence.old self.old.words.now self.old.owner.now }
        ensures { Finished (cells_of view.entry) c evidence.old evidence.new self.new.words.now self.new.owner.now result }
    {
        let mut additions = 0;
        while let Some(m) = bitset::largest(b) {
            let Some(a) = self.owner[m] else {
                self.owner[m] = Some(c as u16);
                bitset::keep_row(self.words, m, w, b);
                return additions;
            };
            bitset::add_row(evidence, c, a as usize, w);
            // Lent anew, so that the words are known to stay as they were.
            let words = &mut *self.words;
            bitset::add_kept(b, words, m, w);
            additions += 1;
        }
        additions
    }

    // Makes row c from the rows below it: the cell alone, and then as many additions as it takes, which it answers.
    fn reduce_row(&mut self, view: View<'_>, c: usize, w: usize, evidence: &mut [u64]) -> u64
        requires c_value { (cells_of view).live c ≡ true }
        requires w_value { w ≡ row_width (cells_of view) }
        requires ready { Ready (cells_of view) c evidence.old self.old.words.now self.old.owner.now }
        ensures { Finished (cells_of view.entry) c evidence.old evidence.new self.new.words.now self.new.owner.now result }
    {
        bitset::start_row(evidence, c, w);
        // A point has no faces, so nothing is added to its row.
        if view.dim(c) == 0 {
            return 0;
        }
        let mut faces = [0; bitset::FULL];
        rows::add_faces(view, c, &mut faces);
        self.finish_row(view, c, w, &mut faces[..w], evidence)
    }

    // Takes the live cells in rising number, and counts the additions by dimension.
    fn reduce_rows(
        &mut self,
        view: View<'_>,
        evidence: &mut [u64],
        additions: &mut [u64; Table::DIMENSIONS],
    )
        requires roomy { Roomy (cells_of view) evidence.old self.old.words.now self.old.owner.now }
        requires fresh { Fresh evidence.old self.old.owner.now }
        ensures { Reduction (cells_of view.entry) evidence.new additions.new }
    {
        let n = view.size();
        let w = bitset::words_for(n);
        *additions = [0; Table::DIMENSIONS];
        for c in 0..n {
            let p = view.dim(c);
            if p < Table::DIMENSIONS {
                additions[p] += self.reduce_row(view, c, w, evidence);
            }
        }
    }
}

// Takes all rows of a table, with room for the boundaries of so many words in all and for so many cells. A small table asks for small
// arrays: setting large ones to 0 would cost more than its rows.
fn fill_within<const KEPT: usize, const OWNERS: usize>(
    view: View<'_>,
    evidence: &mut [u64],
    additions: &mut [u64; Table::DIMENSIONS],
)
    requires evidence_len { length evidence.old ≡ evidence_words (cells_of view) }
    requires blank { Blank evidence.old }
    requires kept_room { bits * row_width (cells_of view) * row_width (cells_of view) ≤ KEPT }
    requires owner_room { bits * row_width (cells_of view) ≤ OWNERS }
    requires kept_most { KEPT ≤ capacity * full_width }
    requires owners_most { OWNERS ≤ capacity }
    ensures { Reduction (cells_of view.entry) evidence.new additions.new }
{
    let mut words = [0; KEPT];
    let mut owner = [None; OWNERS];
    let mut kept = Kept {
        words: &mut words,
        owner: &mut owner,
    };
    kept.reduce_rows(view, evidence, additions);
}

// The whole of the work, over any old contents.
fn fill(view: View<'_>, evidence: &mut [u64], additions: &mut [u64; Table::DIMENSIONS])
    requires { length evidence.old ≡ evidence_words (cells_of view) }
    ensures { Reduction (cells_of view.entry) evidence.new additions.new }
{
    evidence.fill(0);
    let n = view.size();
    if n <= SMALL {
        fill_within::<SMALL, SMALL>(view, evidence, additions);
    } else if n <= MIDDLE {
        fill_within::<MIDDLE_KEPT, MIDDLE>(view, evidence, additions);
    } else {
        fill_within::<LARGE_KEPT, { Table::CAPACITY }>(view, evidence, additions);
    }
}

// Whether the reducer is refused: 1 for a length, 2 for a table that is not valid.
fn judge(t: &[u16], evidence: &[u64]) -> Result<(), Refusal>
    ensures { result ≡ reduce_verdict t.now evidence.now }
{
    if !rows::lengths_fit(t, evidence) {
        return Err(Refusal::Length);
    }
    audit::audit(t)
}

// Fills the evidence by the printed rule, and tells the additions made in each dimension. Refused with 1, 2, in that order; then no
// word and no count changes.
pub fn reduce(
    t: &[u16],
    evidence: &mut [u64],
    additions: &mut [u64; Table::DIMENSIONS],
) -> Result<(), Refusal>
    ensures { Reduces t.now evidence.old additions.old result evidence.new additions.new }
{
    judge(t, evidence)?;
    fill(View { words: t }, evidence, additions);
    Ok(())
}

// The numbers of the code are those of the definitions.
fn same_numbers()
    ensures value { SMALL ≡ small }
    ensures middle_words_value { MIDDLE_WORDS ≡ middle_words }
    ensures value_2 { MIDDLE ≡ middle }
    ensures middle_kept_value { MIDDLE_KEPT ≡ middle * middle_words }
    ensures large_kept_value { LARGE_KEPT ≡ capacity * full_width }
{}
