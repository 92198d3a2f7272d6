// Sets of cell numbers in 64-bit words: bit b of word w stands for the number 64·w + b. Nothing here speaks of tables.
// These are parts for the crates above, which show what each one asks; none is a public call.
#![tactic(auto)]

ghost use Rattle.std.specs.Prelude.{◌≡◌, ◌*◌, ◌/◌, ◌^◌, ◌≤◌, ◌<◌, ◌+◌, length, All, IfSome, IfNone};
ghost use Rattle.std.specs.List.{HoldsAt, AllWithin};
ghost use Rattle.bitset.specs.Bits.{words_for, full_width, member, toggled, sum_of, IsLowest, LargestIs, nothing_in, IsWithin};

mod matrix;

pub use matrix::{add_kept, add_row, keep_row, row, start_row};

// Words in a largest set. A loop that is told this number is unrolled and keeps its words in registers, which a width that is known
// only as it runs does not allow; so the function that adds sets asks for it first.
pub const FULL: usize = 8;

// How many words a set of numbers below n takes.
pub fn words_for(n: usize) -> usize
    ensures { result ≡ words_for n }
{
    n.div_ceil(64)
}

// Whether c is in the set; a number past the last word is not.
pub fn has(ws: &[u64], c: usize) -> bool
    ensures { result ≡ member ws.now c }
{
    match ws.get(c / 64) {
        Some(word) => (word >> (c % 64)) % 2 == 1,
        None => false,
    }
}

// Puts c in, or takes it out where it was in.
pub fn toggle(ws: &mut [u64], c: usize)
    requires { c / 64 < length ws.old }
    ensures { ws.new ≡ toggled ws.old c }
{
    ws[c / 64] ^= 1 << (c % 64);
}

// Adds a set to another of the same width: word by word, exclusive or.
pub fn add(into: &mut [u64], from: &[u64])
    requires { length into.old ≡ length from.now }
    ensures { into.new ≡ sum_of into.old from.now }
{
    if from.len() == FULL {
        return add_words(&mut into[..FULL], &from[..FULL]);
    }
    add_words(into, from)
}

fn add_words(into: &mut [u64], from: &[u64])
    requires { length into.old ≡ length from.now }
    ensures { into.new ≡ sum_of into.old from.now }
{
    for (w, word) in into.iter_mut().enumerate() {
        *word ^= from[w];
    }
}

// The largest member, from the top bit of the last word that is not 0. It asks that every number that
// the words can stand for fits a usize.
pub fn largest(ws: &[u64]) -> Option<usize>
    requires { 64 * length ws.now ≤ 2 ^ 64 }
    ensures { LargestIs ws.now result }
{
    let last = last_word(ws)?;
    Some(64 * last + ws[last].ilog2() as usize)
}

// The place of the last word that is not 0.
fn last_word(ws: &[u64]) -> Option<usize>
    ensures inside { IfSome result (λ w. w < length ws.now) }
    ensures nonzero { IfSome result (HoldsAt (λ word. 0 < word) ws.now) }
    ensures zeros { IfSome result (λ w. AllWithin (λ word. word ≡ 0) ws.now (w + 1) (length ws.now)) }
    ensures none { IfNone result (All (λ word. word ≡ 0) ws.now) }
{
    ws.iter().rposition(|word| *word != 0)
}

// Whether the set has no member.
pub fn is_empty(ws: &[u64]) -> bool
    ensures { result ≡ nothing_in ws.now }
{
    ws.iter().all(|word| *word == 0)
}

// Whether every member of the first set is in the second, which has as many words at least: word by word.
pub fn within(xs: &[u64], ys: &[u64]) -> bool
    requires { length xs.now ≤ length ys.now }
    ensures { IsWithin xs.now ys.now result }
{
    xs.iter().zip(ys).all(|(x, y)| x | y == *y)
}

// The lowest bit of a word that is not 0.
pub fn lowest(v: u64) -> usize
    requires { 0 < v }
    ensures { IsLowest v result }
{
    v.trailing_zeros() as usize
}

// The number of the code is that of the definitions.
fn same_numbers()
    ensures { FULL ≡ full_width }
{}
