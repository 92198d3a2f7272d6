// Cone over a closed set of marked cells. All new numbers are fixed before a face is written, since after merges a face can have a
// higher number than its cell.
#![tactic(auto)]

ghost use Rattle.std.specs.Prelude.{◌≡◌};
ghost use Rattle.calls.specs.Calls.{verdict, Ends};
ghost use Rattle.cone.specs.Cone.{cone_answer, cone_leaves};
ghost use Rattle.cone.specs.Parts.{early_grounds};

mod marks;
mod numbers;
mod raising;

use calls::Refusal;
use numbers::Numbers;
use table::Table;

// Refused with 1, 2, 3, 7 or 8, in that order. The room is asked once the free numbers are known.
fn judge(t: &[u16], marks: &[u64]) -> Result<(), Refusal>
    ensures { result ≡ verdict (early_grounds t.now marks.now) }
{
    if marks.len() != bitset::words_for(Table::room(t)) {
        return Err(Refusal::Length);
    }
    audit::audit(t)?;
    marks::asked(t, marks)
}

// Fixes the new numbers and writes the new cells, or is refused with 9. Both passes end with the last mark: few cells of a table may
// be marked, and those after the last cost nothing then.
fn built(t: &mut [u16], marks: &[u64]) -> Result<u16, Refusal>
    requires { verdict (early_grounds t.old marks.now) ≡ Ok tt }
    ensures { Ends (cone_answer t.old marks.now) (cone_leaves t.old marks.now) result t.new }
{
    let mut numbers = Numbers {
        apex: 0,
        cones: [0; Table::CAPACITY],
    };
    numbers.give(t, marks)?;
    raising::raise(t, marks, &numbers);
    Ok(numbers.apex)
}

// Adds a point and a cone over each marked cell. Refused with 1, 2, 3, 7, 8, 9, in that order; then no word changes.
pub fn cone(t: &mut [u16], marks: &[u64]) -> Result<u16, Refusal>
    ensures { Ends (cone_answer t.old marks.now) (cone_leaves t.old marks.now) result t.new }
{
    judge(t, marks)?;
    built(t, marks)
}
