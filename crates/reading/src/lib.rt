// Reading with signs: the incidence of two cells, and the boundary of a chain with integer coefficients.
#![tactic(auto)]

ghost use Rattle.std.specs.Prelude.{◌≡◌, ◌&&◌, ◌≤◌, ◌<◌, length, get_or, pos, ◌+ℤ◌, nat_abs, leb};
ghost use Rattle.std.specs.Int.{w64};
ghost use Rattle.std.proofs.Common.{SFits};
ghost use Rattle.table.specs.Kind.{top};
ghost use Rattle.table.specs.Table.{cells_of, sized};
ghost use Rattle.calls.specs.Calls.{Ends};
ghost use Rattle.reading.specs.Sums.{integers};
ghost use Rattle.reading.specs.Incidence.{incidence_of, incidence_answer};
ghost use Rattle.reading.specs.Boundary.{boundary_of, boundary_verdict, boundary_leaves, limit, coefficient, lengths_fit, all_small, all_placed, turned};
ghost use Rattle.reading.specs.Steps.{put as put_into, added, Adding, Addable, chain_verdict, cells_answer};

use calls::Refusal;
use table::Table;

// The largest coefficient that a call takes, either sign.
const LIMIT: u64 = 1 << 40;

// Whether all coefficients lie within the limit.
fn coefficients_small(chain: &[i64]) -> bool
    ensures { result ≡ all_small (length chain.now) chain.now }
{
    chain.iter().all(|x| x.unsigned_abs() <= LIMIT)
}

// Whether every coefficient that is not 0 stands at a live p-cell.
fn coefficients_placed(t: &[u16], chain: &[i64], p: u16) -> bool
    requires { (length chain.now ≡ cells_of t.now) × (p ≤ top) }
    ensures { result ≡ all_placed t.now chain.now p }
{
    chain
        .iter()
        .enumerate()
        .all(|(c, x)| *x == 0 || Table::dim(t, c) == p)
}

// Whether the words are a table's, and the chain and the result have a number for each of its cells.
fn lengths_fit(t: &[u16], chain: &[i64], res: &[i64]) -> bool
    ensures { result ≡ (sized t.now && lengths_fit t.now chain.now res.now) }
{
    let n = Table::room(t);
    Table::fits(t) && chain.len() == n && res.len() == n
}

// Adds x at number u where the place j is even, and takes it away where it is odd.
fn put(res: &mut [i64], u: usize, j: usize, x: i64)
    requires { (u < length res.old) × SFits w64 (get_or res.old u (pos 0) +ℤ turned j x) }
    ensures { res.new ≡ put_into res.old u j x }
{
    if j % 2 == 0 {
        res[u] += x;
    } else {
        res[u] -= x;
    }
}

// Adds the coefficient x of cell c, with the sign of each place, at each of its faces. The faces are read where they lie: each is
// used once, and seven by value would cost more than the sums.
fn add_cell(t: &[u16], c: usize, used: usize, x: i64, res: &mut [i64])
    requires { Adding t.now c used x res.old }
    ensures { res.new ≡ integers (length res.old) (added t.now c x res.old used) }
{
    for j in 0..used {
        put(res, Table::face(t, c, j) as usize, j, x);
    }
}

// Adds every cell of the p-chain.
fn add_cells(t: &[u16], chain: &[i64], p: u16, res: &mut [i64])
    requires { Addable t.now chain.now p res.old }
    ensures { res.new ≡ integers (cells_of t.now) (boundary_of t.now p (coefficient chain.now)) }
{
    let used = Table::used(p);
    for (c, x) in chain.iter().enumerate() {
        if *x != 0 {
            add_cell(t, c, used, *x, res);
        }
    }
}

// The refusal that the chain and its dimension give, in the order 12, 10, 11, or that there is none.
fn judge_chain(t: &[u16], chain: &[i64], p: u16) -> Result<(), Refusal>
    requires { length chain.now ≡ cells_of t.now }
    ensures { result ≡ chain_verdict t.now chain.now p }
{
    if p > Table::TOP {
        return Err(Refusal::NoSuchPlace);
    }
    if !coefficients_small(chain) {
        return Err(Refusal::TooLarge);
    }
    if !coefficients_placed(t, chain, p) {
        return Err(Refusal::Misplaced);
    }
    Ok(())
}

// The refusal of a boundary, in its order, or that there is none. Nothing is written.
fn judge(t: &[u16], chain: &[i64], p: u16, res: &[i64]) -> Result<(), Refusal>
    ensures { result ≡ boundary_verdict t.now chain.now p res.now }
{
    if !lengths_fit(t, chain, res) {
        return Err(Refusal::Length);
    }
    audit::audit(t)?;
    judge_chain(t, chain, p)
}

// The boundary of the p-chain `chain`, into `res`. Refused with 1, 2, 12, 10, 11, in that order; then no word changes.
pub fn boundary(t: &[u16], chain: &[i64], p: u16, res: &mut [i64]) -> Result<(), Refusal>
    ensures { Ends (boundary_verdict t.now chain.now p res.old) (boundary_leaves t.now chain.now p res.old) result res.new }
{
    judge(t, chain, p, res)?;
    res.fill(0);
    add_cells(t, chain, p, res);
    Ok(())
}

// The sum of (−1)^j over the places j at which face j of s is u.
fn places_sum(t: &[u16], s: usize, u: u16) -> i64
    requires { s < cells_of t.now }
    ensures { result ≡ incidence_of t.now s u }
{
    let places = Table::used(Table::dim(t, s));
    let faces = Table::faces(t, s);
    let mut sum: i64 = 0;
    for (j, f) in faces[..places].iter().enumerate() {
        if *f == u {
            if j % 2 == 0 {
                sum += 1;
            } else {
                sum -= 1;
            }
        }
    }
    sum
}

// The incidence of two cells of a valid table. Refused with 3, 5, in that order.
fn of_cells(t: &[u16], s: u16, u: u16) -> Result<i64, Refusal>
    ensures { result ≡ cells_answer t.now s u }
{
    if !Table::live(t, s as usize) || !Table::live(t, u as usize) {
        return Err(Refusal::NotLive);
    }
    if Table::dim(t, s as usize) != Table::dim(t, u as usize) + 1 {
        return Err(Refusal::DimensionsDiffer);
    }
    Ok(places_sum(t, s as usize, u))
}

// The sum of (−1)^j over the places j at which face j of s is u. Refused with 1, 2, 3, 5, in that order.
pub fn incidence(t: &[u16], s: u16, u: u16) -> Result<i64, Refusal>
    ensures { result ≡ incidence_answer t.now s u }
{
    audit::audit(t)?;
    of_cells(t, s, u)
}
