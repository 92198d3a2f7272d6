// Weld, the identification of two cells whose sides aren't joined yet: the classes of joined cells, level by level from the two cells
// down, on a flat map of 512 numbers; then one pass over the records. No function calls itself.
#![tactic(auto)]

ghost use Rattle.std.specs.Prelude.{◌≡◌, ◌<◌, ◌≤◌, length, get_or};
ghost use Rattle.table.specs.Kind.{capacity, top, used as used_of};
ghost use Rattle.table.specs.Table.{cells_of, dim as dim_of, Live, Valid};
ghost use Rattle.table.specs.Records.{Stored};
ghost use Rattle.calls.specs.Calls.{verdict, Ends};
ghost use Rattle.merge.specs.Rename.{renamed};
ghost use Rattle.merge.specs.Writing.{Joinable};
ghost use Rattle.weld.specs.Joins.{joined, join_faces, join_cell, join_level, join_levels, weld_map};
ghost use Rattle.weld.specs.Maps.{held_by, Maps, Ready, Becomes, Sent, Renamable, renamed_record};
ghost use Rattle.weld.specs.Call.{weld_answer, weld_leaves};

use calls::Refusal;
use table::{Record, Table};

// Every word that is the number gone becomes kept. Each word is written, changed or not: so many go at once.
fn send(k: &mut [u16], kept: u16, gone: u16)
    ensures { Sent kept gone (length k.old) k.old k.new }
{
    for word in k.iter_mut() {
        *word = merge::sent(*word, kept, gone);
    }
}

// The classes of x and y become one, under the smaller of their numbers.
fn join(k: &mut [u16], x: usize, y: usize)
    requires { (Maps (length k.old) k.old) × (x < length k.old) × (y < length k.old) }
    ensures { Becomes (length k.old) (λ κ. joined κ x y) k.old k.new }
{
    let i = k[x];
    let j = k[y];
    if i != j {
        send(k, i.min(j), i.max(j));
    }
}

// Joins the faces of two cells of one dimension, place by place.
fn join_places(t: &[u16], k: &mut [u16], c: usize, d: usize)
    requires { (Ready t.now k.old) × (Live t.now c) × (Live t.now d) × (dim_of t.now c ≡ dim_of t.now d) }
    ensures { Becomes (cells_of t.now) (join_faces t.now c d) k.old k.new }
{
    let used = Table::used(Table::dim(t, c));
    let xs = Table::faces(t, c);
    let ys = Table::faces(t, d);
    for (j, x) in xs[..used].iter().enumerate() {
        join(k, *x as usize, ys[j] as usize);
    }
}

// Joins record c with its image face by face, where it is a q-cell that goes elsewhere.
fn join_cell(t: &[u16], k: &mut [u16], q: u16, c: usize)
    requires { (Ready t.now k.old) × (q ≤ top) × (c < cells_of t.now) }
    ensures { Becomes (cells_of t.now) (join_cell t.now q c) k.old k.new }
{
    if Table::dim(t, c) != q {
        return;
    }
    let d = usize::from(k[c]);
    if d != c {
        join_places(t, k, c, d);
    }
}

// Joins each q-cell with its image, face by face.
fn join_cells(t: &[u16], k: &mut [u16], q: u16)
    requires { (Ready t.now k.old) × (q ≤ top) }
    ensures { Becomes (cells_of t.now) (join_level t.now q) k.old k.new }
{
    for c in 0..Table::room(t) {
        join_cell(t, k, q, c);
    }
}

// All levels from p down to 1: where q is reached no join of q-cells is to come.
fn join_levels(t: &[u16], k: &mut [u16], p: u16)
    requires { (Ready t.now k.old) × (p ≤ top) }
    ensures { Becomes (cells_of t.now) (join_levels t.now p) k.old k.new }
{
    for q in (1..=p).rev() {
        join_cells(t, k, q);
    }
}

// Each word is its own number.
fn own(k: &mut [u16])
    requires { length k.old ≤ capacity }
    ensures { Becomes (length k.old) (λ κ c. c) k.old k.new }
{
    for (c, word) in k.iter_mut().enumerate() {
        *word = c as u16;
    }
}

// Fills the words, one for each cell, with the map of the weld of a and b.
fn classes(t: &[u16], k: &mut [u16], a: usize, b: usize)
    requires { (Joinable t.now a b) × (length k.old ≡ cells_of t.now) }
    ensures { Becomes (cells_of t.now) (λ κ. weld_map t.now a b) k.old k.new }
{
    own(k);
    join(k, a, b);
    join_levels(t, k, Table::dim(t, a));
}

// Renames record c, which has so many faces: it becomes free where its cell goes elsewhere, else its faces go to their images. The number
// is a constant, so the faces are written by straight code.
fn rename_as<const FACES: usize>(t: &mut [u16], k: &[u16], c: usize)
    requires { (Renamable t.old k.now c) × (FACES ≡ used_of (dim_of t.old c)) }
    ensures { Stored c (renamed_record (held_by k.now t.old) t.old c) t.old t.new }
{
    if usize::from(k[c]) != c {
        Table::put(t, c, Record::FREE);
        return;
    }
    for j in 0..FACES {
        let f = Table::face(t, c, j);
        Table::put_face(t, c, j, k[f as usize]);
    }
}

// Renames record c: an arm for each number of faces.
fn rename(t: &mut [u16], k: &[u16], c: usize)
    requires { Renamable t.old k.now c }
    ensures { Stored c (renamed_record (held_by k.now t.old) t.old c) t.old t.new }
{
    match Table::dim(t, c) {
        1 => rename_as::<2>(t, k, c),
        2 => rename_as::<3>(t, k, c),
        3 => rename_as::<4>(t, k, c),
        4 => rename_as::<5>(t, k, c),
        5 => rename_as::<6>(t, k, c),
        6 => rename_as::<7>(t, k, c),
        _ => rename_as::<0>(t, k, c),
    }
}

// Renames every record.
fn rename_all(t: &mut [u16], k: &[u16])
    requires { (Valid t.old) × (cells_of t.old ≤ length k.now) }
    ensures { t.new ≡ renamed (held_by k.now t.old) t.old }
{
    for c in 0..Table::room(t) {
        rename(t, k, c);
    }
}

// Welds two live cells of one dimension: their classes on the words, then one pass over the records.
fn glue_on(t: &mut [u16], k: &mut [u16], a: usize, b: usize)
    requires { (Joinable t.old a b) × (length k.old ≡ cells_of t.old) }
    ensures { t.new ≡ renamed (weld_map t.old a b) t.old }
{
    classes(t, k, a, b);
    rename_all(t, k);
}

// The same on words of its own, set to 0 before they are used: of so many each cell has one.
fn glue_with<const N: usize>(t: &mut [u16], a: usize, b: usize)
    requires { (Joinable t.old a b) × (cells_of t.old ≤ N) × (N ≤ capacity) }
    ensures { t.new ≡ renamed (weld_map t.old a b) t.old }
{
    let mut k = [0u16; N];
    glue_on(t, &mut k[..Table::room(t)], a, b);
}

// A table of so many cells has few words for its map.
const FEW: usize = 64;

const MANY: usize = Table::CAPACITY;

// The same: on 1 KB of stack, or an eighth of that where it does, since a small table is welded in less time than the whole takes to set.
fn glue(t: &mut [u16], a: usize, b: usize)
    requires { Joinable t.old a b }
    ensures { t.new ≡ renamed (weld_map t.old a b) t.old }
{
    if Table::room(t) <= FEW {
        glue_with::<FEW>(t, a, b);
    } else {
        glue_with::<MANY>(t, a, b);
    }
}

// Joins two different live cells of one dimension, their faces place by place, and so on down; each class of joined cells becomes its
// smallest number, and the answer is the pair's. Refused with 1 to 5, in that order; then no word changes.
pub fn weld(t: &mut [u16], a: u16, b: u16) -> Result<u16, Refusal>
    ensures { Ends (weld_answer t.old a b) (weld_leaves t.old a b) result t.new }
{
    merge::joinable(t, a, b)?;
    glue(t, a as usize, b as usize);
    Ok(a.min(b))
}
