// The sheet test: whether a part is a sheet that a mesher can run on. One pass finds the largest dimension n; a second counts, for each
// (n−1)-cell, at how many places it is named, leaves at the third, and marks every other cell that is named; the last looks for a cell
// that is neither an n-cell nor named. In a valid table the cells over an (n−1)-cell are n-cells, so a place of one is a wing.
#![tactic(auto)]

ghost use Rattle.std.specs.Prelude.{◌≡◌, ◌≢◌, ◌+◌, ◌≤◌, ◌<◌, length};
ghost use Rattle.table.specs.Kind.{faces, used as used_of};
ghost use Rattle.table.specs.Table.{cells_of, dim as dim_of, Valid};
ghost use Rattle.sheet.specs.Sheet.{is_sheet, sheet_answer};
ghost use Rattle.sheet.specs.Sides.{level_of, levels_of, IsNext, Counted, CountEnds, passes as passes_test, all_pass};

use calls::Refusal;
use table::Table;

// The level of a record with this word 0: one more than the dimension, or 0 for a free record.
fn level(p: u16) -> u16
    ensures { result ≡ level_of p }
{
    if p <= Table::TOP { p + 1 } else { 0 }
}

// The levels of the table: one more than the largest live dimension, or 0 where no cell is live.
fn levels(t: &[u16]) -> u16
    ensures { result ≡ levels_of t.now }
{
    let mut l: u16 = 0;
    for c in 0..Table::room(t) {
        l = l.max(level(Table::dim(t, c)));
    }
    l
}

// How many places c has.
fn places(t: &[u16], c: usize) -> usize
    requires { c < cells_of t.now }
    ensures { (result ≡ used_of (dim_of t.now c)) × (result ≤ faces) }
{
    Table::used(Table::dim(t, c))
}

// Counts the places of c, a cell of the largest dimension: one for the cell that each names. Leaves with no at a third place of one
// cell.
fn count_wings(t: &[u16], c: usize, sides: &mut [u16]) -> bool
    requires next { IsNext t.now c sides.old }
    requires highest { dim_of t.now c + 1 ≡ levels_of t.now }
    ensures { CountEnds t.now sides.new (c + 1) result }
{
    for f in &Table::faces(t, c)[..places(t, c)] {
        let u = *f as usize;
        if sides[u] >= 2 {
            return false;
        }
        sides[u] += 1;
    }
    true
}

// Marks every cell that c, a cell of another dimension, names: these are not counted, so no counter is read here.
fn mark_faces(t: &[u16], c: usize, sides: &mut [u16])
    requires next { IsNext t.now c sides.old }
    requires lower { dim_of t.now c + 1 ≢ levels_of t.now }
    ensures { Counted t.now sides.new (c + 1) }
{
    for f in &Table::faces(t, c)[..places(t, c)] {
        sides[*f as usize] = 1;
    }
}

// Takes cell c into the counters of a table of l levels; no at a third wing of one cell.
fn count_cell(t: &[u16], c: usize, l: u16, sides: &mut [u16]) -> bool
    requires next { IsNext t.now c sides.old }
    requires levels { l ≡ levels_of t.now }
    ensures { CountEnds t.now sides.new (c + 1) result }
{
    if Table::dim(t, c) as usize + 1 == l as usize {
        return count_wings(t, c, sides);
    }
    mark_faces(t, c, sides);
    true
}

// Takes every cell into the counters; no where an (n−1)-cell has a third wing.
fn count_sides(t: &[u16], l: u16, sides: &mut [u16]) -> bool
    requires valid { Valid t.now }
    requires counted { Counted t.now sides.old 0 }
    requires levels { l ≡ levels_of t.now }
    ensures { CountEnds t.now sides.new (cells_of t.now) result }
{
    for c in 0..Table::room(t) {
        if !count_cell(t, c, l, sides) {
            return false;
        }
    }
    true
}

// Whether a cell with this word 0 and this many sides passes in a table of l levels: it is free, of the largest dimension, or named.
fn passes(p: u16, l: u16, sides: u16) -> bool
    ensures { result ≡ passes_test p l sides }
{
    p > Table::TOP || p + 1 == l || sides > 0
}

// Whether every cell passes.
fn all_pass(t: &[u16], l: u16, sides: &[u16]) -> bool
    requires { cells_of t.now ≤ length sides.now }
    ensures { result ≡ all_pass t.now l sides.now }
{
    for c in 0..Table::room(t) {
        if !passes(Table::dim(t, c), l, sides[c]) {
            return false;
        }
    }
    true
}

// Whether a valid table is a sheet.
fn is_sheet(t: &[u16]) -> bool
    requires { Valid t.now }
    ensures { result ≡ is_sheet t.now }
{
    let l = levels(t);
    if l == 0 {
        return false;
    }
    let mut sides = [0; Table::CAPACITY];
    count_sides(t, l, &mut sides) && all_pass(t, l, &sides)
}

// Whether the table is a sheet. Refused with 1, 2, in that order.
pub fn sheet(t: &[u16]) -> Result<bool, Refusal>
    ensures { result ≡ sheet_answer t.now }
{
    audit::audit(t)?;
    Ok(is_sheet(t))
}
