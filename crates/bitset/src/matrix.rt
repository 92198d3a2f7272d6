// Sets one after another, w words to each: row c is the w words from place c · w on.
// Parts for the crates above, as the rest of this crate.
ghost use Rattle.std.specs.Prelude.{◌≡◌, ◌+◌, ◌*◌, ◌/◌, ◌≤◌, ◌<◌, length};
ghost use Rattle.bitset.specs.Bits.{sum_of};
ghost use Rattle.bitset.specs.Rows.{row_at, RowStarted, RowAdded, RowKept};

use super::{add, toggle};

// Puts the number c into row c, or takes it out where it was in.
pub fn start_row(ws: &mut [u64], c: usize, w: usize)
    requires c_bound { c / 64 < w }
    requires w_in_bounds { c * w + w ≤ length ws.old }
    ensures { RowStarted w c ws.old ws.new }
{
    toggle(&mut ws[c * w..c * w + w], c);
}

// Adds the earlier row a to row c.
pub fn add_row(ws: &mut [u64], c: usize, a: usize, w: usize)
    requires a_lt_c { a < c }
    requires w_in_bounds { c * w + w ≤ length ws.old }
    ensures { RowAdded w c a ws.old ws.new }
{
    let (earlier, later) = ws.split_at_mut(c * w);
    add(&mut later[..w], row(earlier, a, w));
}

// Keeps a set of w words as row m.
pub fn keep_row(ws: &mut [u64], m: usize, w: usize, words: &[u64])
    requires w_in_bounds { m * w + w ≤ length ws.old }
    requires words_len { length words.now ≡ w }
    ensures { RowKept w m words.now ws.old ws.new }
{
    ws[m * w..m * w + w].copy_from_slice(words);
}

// Row c, where it lies.
pub fn row(ws: &[u64], c: usize, w: usize) -> &[u64]
    requires { c * w + w ≤ length ws.now }
    ensures { result.now ≡ row_at w ws.now c }
{
    &ws[c * w..c * w + w]
}

// Adds row m to a set of w words.
pub fn add_kept(into: &mut [u64], ws: &[u64], m: usize, w: usize)
    requires w_in_bounds { m * w + w ≤ length ws.now }
    requires into_len { length into.old ≡ w }
    ensures { into.new ≡ sum_of into.old (row_at w ws.now m) }
{
    add(into, row(ws, m, w))
}
