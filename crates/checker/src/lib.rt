// The checker of evidence for a hole count. It holds no array of rows, so that it runs on stations with little stack.
#![tactic(auto)]

ghost use Rattle.std.specs.Prelude.{◌≡◌, ◌+◌, ◌≤◌, ◌<◌, length};
ghost use Rattle.calls.specs.Calls.{verdict};
ghost use Rattle.bitset.specs.Bits.{full_width};
ghost use Rattle.rows.specs.Rows.{RowLive};
ghost use Rattle.rows.specs.Seen.{cells_of};
ghost use Rattle.checker.specs.Check.{Answered, Checks, all_rows, keeps_a, row_largest};
ghost use Rattle.checker.specs.Row.{row_keeps, Lives, largest_number, Found, CountsFit, differences};

use calls::Refusal;
use rows::Evidence;
use rows::view::View;
use table::Table;

// For each dimension the live cells and the hole number.
#[derive(Clone, Copy)]
pub struct Counts {
    pub cells: [u16; Table::DIMENSIONS],
    pub holes: [u16; Table::DIMENSIONS],
}

// Puts number c, where it is live, into the set of its dimension; the seven sets stand one after another.
fn add_live(view: View<'_>, c: usize, lives: &mut [u64])
    requires c_bound { c < (cells_of view).size }
    requires lives { Lives (cells_of view) c lives.old }
    ensures { Lives (cells_of view.entry) (c + 1) lives.new }
{
    let p = view.dim(c);
    if p < Table::DIMENSIONS {
        bitset::toggle(lives, Table::CAPACITY * p + c);
    }
}

// Rule A at number c, of the row's words: a free number's row is empty; a live cell is in its own row, and the row lies within the
// live cells of its dimension up to c.
fn row_keeps(view: View<'_>, c: usize, row: &[u64], lives: &[u64]) -> bool
    requires c_bound { c < (cells_of view).size }
    requires row_len_bound { length row.now ≤ full_width }
    requires lives { Lives (cells_of view) (c + 1) lives.now }
    ensures { result ≡ row_keeps (cells_of view.entry) c row.now }
{
    let p = view.dim(c);
    if p >= Table::DIMENSIONS {
        return bitset::is_empty(row);
    }
    if !bitset::has(row, c) {
        return false;
    }
    bitset::within(row, bitset::row(lives, p, bitset::FULL))
}

// Rule A at number c.
fn keeps_a(evidence: Evidence<'_>, c: usize, lives: &[u64]) -> bool
    requires c_bound { c < (cells_of evidence.view).size }
    requires lives { Lives (cells_of evidence.view) (c + 1) lives.now }
    ensures { result ≡ keeps_a (cells_of evidence.entry.view) evidence.entry.words.now c }
{
    row_keeps(evidence.view, c, evidence.row(c), lives)
}

// The largest cell of the boundary of row c, whose cells are live.
fn row_largest(evidence: Evidence<'_>, c: usize) -> Option<usize>
    requires c_bound { c < (cells_of evidence.view).size }
    requires row_live { RowLive (cells_of evidence.view) evidence.words.now c }
    ensures { largest_number result ≡ row_largest (cells_of evidence.entry.view) evidence.entry.words.now c }
{
    bitset::largest(&evidence.row_boundary(c))
}

// Tests row c by rule A, then by rule B against the largest cells met so far, puts its own among them, and tells whether it has a
// boundary. The row of a free number or of a point has none, since no cell in it has a face.
fn take_row(
    evidence: Evidence<'_>,
    c: usize,
    met: &mut [u64],
    lives: &[u64],
) -> Result<bool, Refusal>
    requires c_bound { c < (cells_of evidence.view).size }
    requires met_len { length met.old ≡ full_width }
    requires lives { Lives (cells_of evidence.view) (c + 1) lives.now }
    ensures { Found (cells_of evidence.entry.view) evidence.entry.words.now c met.old met.new result }
{
    if !keeps_a(evidence, c, lives) {
        return Err(Refusal::RuleA(c as u16));
    }
    let p = evidence.view.dim(c);
    if p == 0 || p >= Table::DIMENSIONS {
        return Ok(false);
    }
    match row_largest(evidence, c) {
        None => Ok(false),
        Some(m) => {
            if bitset::has(met, m) {
                return Err(Refusal::RuleB(c as u16));
            }
            bitset::toggle(met, m);
            Ok(true)
        }
    }
}

// n_p − r_p − r_(p+1) for each dimension, where nothing is lost.
fn holes_of(cells: &[u16], bounding: &[u16]) -> [u16; Table::DIMENSIONS]
    requires { CountsFit cells.now bounding.now }
    ensures { result ≡ differences cells.now bounding.now }
{
    std::array::from_fn(|p| cells[p] - bounding[p] - bounding[p + 1])
}

// Goes through the rows in rising number and counts, for each dimension, those with a boundary.
fn check_rows(evidence: Evidence<'_>) -> Result<Counts, Refusal>
    ensures { Answered (cells_of evidence.entry.view) evidence.entry.words.now (verdict (all_rows (cells_of evidence.entry.view) evidence.entry.words.now)) result }
{
    let view = evidence.view;
    let mut met = [0; bitset::FULL];
    let mut lives = [0; Table::DIMENSIONS * bitset::FULL];
    let mut bounding = [0; Table::DIMENSIONS + 1];
    for c in 0..view.size() {
        add_live(view, c, &mut lives);
        if take_row(evidence, c, &mut met, &lives)? {
            bounding[view.dim(c)] += 1;
        }
    }
    let cells = view.census();
    let holes = holes_of(&cells, &bounding);
    Ok(Counts { cells, holes })
}

// Tests the evidence by rules A and B. Refused with 1, 2, then 13 or 14 with the first row at fault.
pub fn check<'a>(t: &'a [u16], evidence: &'a [u64]) -> Result<Counts, Refusal>
    ensures { Checks t.now evidence.now result }
{
    if !rows::lengths_fit(t, evidence) {
        return Err(Refusal::Length);
    }
    audit::audit(t)?;
    let view = View { words: t };
    check_rows(Evidence {
        view,
        words: evidence,
    })
}
