// The numbers of the new cells: the free numbers of the table in rising order, the first for the apex, the next ones for the cones. All
// are fixed before a face is written. Parts of the call, seen in this crate alone.
ghost use Rattle.std.specs.Prelude.{◌≡◌, not, ◌-◌, OnOk, Ok};
ghost use Rattle.std.specs.List.{find, range_with_len};
ghost use Rattle.table.specs.Table.{cells_of, live as live_in};
ghost use Rattle.calls.specs.Calls.{verdict};
ghost use Rattle.cone.specs.Parts.{Given, early_grounds, room_verdict};

use super::marks::marks_end;
use calls::Refusal;
use table::Table;

// The numbers of a cone's new cells: the apex's, and at the place of each marked cell that of the cone over it.
#[derive(Drop)]
pub struct Numbers {
    pub apex: u16,
    pub cones: [u16; Table::CAPACITY],
}

// The first free number from `from` on.
fn next_free(t: &[u16], from: usize) -> Option<usize>
    ensures { result ≡ find (λ c. not (live_in t.now c)) (range_with_len from (cells_of t.now - from)) }
{
    (from..Table::room(t)).find(|c| !Table::live(t, *c))
}

impl Numbers {
    // Gives the apex the first free number and each marked cell the next one after the last one given, or is refused with 9 where there
    // are too few.
    pub fn give(&mut self, t: &[u16], marks: &[u64]) -> Result<(), Refusal>
        requires { verdict (early_grounds t.now marks.now) ≡ Ok tt }
        ensures room { result ≡ room_verdict t.now marks.now }
        ensures given { OnOk result (Given t.now marks.now self.new) }
    {
        let apex = next_free(t, 0).ok_or(Refusal::NoRoom)?;
        self.apex = apex as u16;
        let mut last = apex;
        for s in 0..marks_end(marks) {
            if bitset::has(marks, s) {
                last = next_free(t, last + 1).ok_or(Refusal::NoRoom)?;
                self.cones[s] = last as u16;
            }
        }
        Ok(())
    }
}
