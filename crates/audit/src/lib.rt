// Emptying a table, and the audit: one pass over the cells, left by its label at the first breach.
#![tactic(auto)]

ghost use Rattle.std.specs.Prelude.{◌≡◌, true, ◌⊎◌, ◌≤◌, ◌<◌};
ghost use Rattle.table.specs.Kind.{top, faces, free_mark, used as used_of};
ghost use Rattle.table.specs.Table.{cells_of, dim as dim_of, Sized};
ghost use Rattle.audit.specs.Audit.{scan, cell_breach, record_sound, law_places, first_breach, audit_grounds};
ghost use Rattle.calls.specs.Calls.{verdict, Ends};
ghost use Rattle.audit.specs.Empty.{empty_verdict, empty_leaves};

use calls::{Breach, Refusal};
use table::Table;

// Sets every word to the free mark, over any old contents. Refused with 1 where the length is no table's; then no word changes.
pub fn empty(t: &mut [u16]) -> Result<(), Refusal>
    ensures { Ends (empty_verdict t.old) (empty_leaves t.old) result t.new }
{
    if !Table::fits(t) {
        return Err(Refusal::Length);
    }
    t.fill(Table::FREE);
    Ok(())
}

// Refuses a call that fills an emptied table, which may have taken something in by then: every word is the free mark again.
pub fn refused(t: &mut [u16], why: Refusal) -> Result<(), Refusal>
    ensures { Ends (Err why) (empty_leaves t.old) result t.new }
{
    // Words that are no table stay as they are.
    let _ = empty(t);
    Err(why)
}

// Whether record c has a dimension or is free, and every face place that it leaves unused is the free mark.
fn record_sound(t: &[u16], c: usize) -> bool
    requires { c < cells_of t.now }
    ensures { result ≡ record_sound t.now c }
{
    let p = Table::dim(t, c);
    if p > Table::TOP {
        if p != Table::FREE {
            return false;
        }
    }
    Table::faces(t, c)[Table::used(p)..]
        .iter()
        .all(|f| *f == Table::FREE)
}

// How many face places of a cell of this dimension the law speaks of.
fn law_places(p: u16) -> usize
    ensures { (result ≡ law_places p) × (result ≤ faces) }
{
    if p < 2 {
        return 0;
    }
    Table::used(p)
}

// The quick pass makes the comparisons of a record a few at a time and leaves for none of them alone, so that the compiler unrolls them.
// Where it does not clear a cell, the labelled loops below, which are the form that the rules name, begin there and name the breach.

// Whether cell c breaks nothing, for its dimension p with this many used places and places of the law: the differences are gathered
// in one word, which is looked at after the dimensions and after each place of the law. The unused places come first: they ask for no
// other record. A face outside the table is left at once, since it cannot be read. A no says nothing of what is wrong, or where. Each
// call has numbers for the last three, so the lengths of the loops are known.
fn clears_as(t: &[u16], n: usize, c: usize, p: u16, used: usize, places: usize) -> bool
    requires n_value { (n ≡ cells_of t.now) × (c < n) }
    requires p_value { (p ≡ dim_of t.now c) × ((p ≤ top) ⊎ (p ≡ free_mark)) }
    requires used_value { (used ≡ used_of p) × (places ≡ law_places p) }
    ensures { result ≡ true → cell_breach t.now c ≡ None }
{
    let faces = Table::faces(t, c);
    let mut bad = 0;
    for f in &faces[used..] {
        bad |= *f ^ Table::FREE;
    }
    for f in &faces[..used] {
        if *f as usize >= n {
            return false;
        }
    }
    for f in &faces[..used] {
        bad |= Table::dim(t, *f as usize) ^ (p - 1);
    }
    if bad != 0 {
        return false;
    }
    for j in 0..places {
        let f = faces[j] as usize;
        for l in 0..j {
            let e = faces[l] as usize;
            bad |= Table::face(t, f, l) ^ Table::face(t, e, j - 1);
        }
        if bad != 0 {
            return false;
        }
    }
    bad == 0
}

// The same for any word 0: one piece of code for each dimension, and one for a free record.
fn clears(t: &[u16], n: usize, c: usize) -> bool
    requires { (n ≡ cells_of t.now) × (c < n) }
    ensures { result ≡ true → cell_breach t.now c ≡ None }
{
    let p = Table::dim(t, c);
    match p {
        0 => clears_as(t, n, c, 0, 0, 0),
        1 => clears_as(t, n, c, 1, 2, 0),
        2 => clears_as(t, n, c, 2, 3, 3),
        3 => clears_as(t, n, c, 3, 4, 4),
        4 => clears_as(t, n, c, 4, 5, 5),
        5 => clears_as(t, n, c, 5, 6, 6),
        6 => clears_as(t, n, c, 6, 7, 7),
        Table::FREE => clears_as(t, n, c, Table::FREE, 0, 0),
        _ => false,
    }
}

// How many cells from the first on break nothing, as far as this quick pass sees.
fn cleared(t: &[u16], n: usize) -> usize
    requires { n ≡ cells_of t.now }
    ensures { (result ≤ n) × (scan (cell_breach t.now) result ≡ None) }
{
    for c in 0..n {
        if !clears(t, n, c) {
            return c;
        }
    }
    n
}

// The first breach of a table of the right length: cell by cell the record, then the face places, then the pairs of the law by j,
// then l. The label leaves every loop at the first failure. The seven faces are read by value once, and f and e lie inside by
// then, so the law's reads ask nothing more. A part of the audit and no public call: its caller shows the length.
pub fn first_breach(t: &[u16]) -> Option<Breach>
    requires { Sized t.now }
    ensures { result ≡ first_breach t.now }
{
    let n = Table::room(t);
    let start = cleared(t, n);
    let mut found = None;
    'cells: for c in start..n {
        if !record_sound(t, c) {
            found = Some(Breach::Record(c));
            break 'cells;
        }
        let p = Table::dim(t, c);
        let used = Table::used(p);
        let places = law_places(p);
        let faces = Table::faces(t, c);
        for j in 0..used {
            let f = faces[j] as usize;
            if f >= n {
                found = Some(Breach::Face(c, j));
                break 'cells;
            }
            if Table::dim(t, f) as usize + 1 != p as usize {
                found = Some(Breach::Face(c, j));
                break 'cells;
            }
        }
        for j in 0..places {
            let f = faces[j] as usize;
            for l in 0..j {
                let e = faces[l] as usize;
                if Table::face(t, f, l) != Table::face(t, e, j - 1) {
                    found = Some(Breach::Law(c, j, l));
                    break 'cells;
                }
            }
        }
    }
    found
}

// Valid, or refused with 1 for the length and 2 for anything else: 2 goes with the first breach.
pub fn audit(t: &[u16]) -> Result<(), Refusal>
    ensures { result ≡ verdict (audit_grounds t.now) }
{
    if !Table::fits(t) {
        return Err(Refusal::Length);
    }
    match first_breach(t) {
        None => Ok(()),
        Some(b) => Err(Refusal::Invalid(b)),
    }
}
