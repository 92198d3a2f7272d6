// Corners: the lookup calls itself on a face and hands on its dimension, which is one less than the cell's and so falls at each call.
#![tactic(auto)]

ghost use Rattle.std.specs.Prelude.{◌≡◌, ◌≤◌};
ghost use Rattle.table.specs.Table.{dim as dim_of, Valid, Live};
ghost use Rattle.corner.specs.Corner.{corner_of, corner_answer};

use calls::Refusal;
use table::Table;

// Corner k of a live p-cell of a valid table.
fn corner_of(t: &[u16], c: u16, p: u16, k: u16) -> u16
    requires valid { Valid t.now }
    requires live { Live t.now c }
    requires p_value { p ≡ dim_of t.now c }
    requires k_le_p { k ≤ p }
    ensures { result ≡ corner_of t.now c k }
{
    if p == 0 {
        return c;
    }
    // The table as a part of itself: handed on as it came, it would be copied at the start of each call, even of the last, which ends at once.
    let n = t.len();
    let whole = &t[..n];
    if k < p {
        return corner_of(whole, Table::face(t, c as usize, p as usize), p - 1, k);
    }
    corner_of(whole, Table::face(t, c as usize, 0), p - 1, p - 1)
}

// Corner k of cell c. Refused with 1, 2, 3, 12, in that order.
pub fn corner(t: &[u16], c: u16, k: u16) -> Result<u16, Refusal>
    ensures { result ≡ corner_answer t.now c k }
{
    audit::audit(t)?;
    of_valid(t, c, k)
}

// The same once the table is known to be valid.
fn of_valid(t: &[u16], c: u16, k: u16) -> Result<u16, Refusal>
    requires { Valid t.now }
    ensures { result ≡ corner_answer t.now c k }
{
    if !Table::live(t, c as usize) {
        return Err(Refusal::NotLive);
    }
    let p = Table::dim(t, c as usize);
    if k > p {
        return Err(Refusal::NoSuchPlace);
    }
    Ok(corner_of(t, c, p, k))
}
