// The face for C and Rust: one function for each public call, no logic of its own. Each answers 0 or the refusal in one word, and writes
// a value on acceptance alone. A 7 in a signature is the number of dimensions, as the header for C has it.
#![tactic(auto)]

ghost use Rattle.std.specs.Prelude.{◌≡◌};
ghost use Rattle.calls.specs.Calls.{Ends};
ghost use Rattle.kernel.specs.Face.{code, value_after};
ghost use Rattle.kernel.specs.Calls.{EmptyEnds, AuditEnds, ConeEnds, MergeEnds, WeldEnds, CompactEnds, IncidenceEnds, BoundaryEnds, CornerEnds, SheetEnds, ReduceEnds, CheckEnds, WriteEnds, ReadEnds, ImportEnds};

use calls::Refusal;

// 0 for an accepted call, else the refusal in one word.
fn code_of(v: Result<(), Refusal>) -> u32
    ensures { result ≡ code v }
{
    match v {
        Ok(()) => 0,
        Err(r) => r.into(),
    }
}

// The code of an answer with a value, which goes to `value` on acceptance alone.
fn tell<T: Copy>(answer: Result<T, Refusal>, value: &mut T) -> u32
    ensures { Ends (code answer) (value_after answer value.old) result value.new }
{
    match answer {
        Ok(x) => {
            *value = x;
            0
        }
        Err(r) => r.into(),
    }
}

#[unsafe(no_mangle)]
pub extern "C" fn bt_empty(table: &mut [u16]) -> u32
    ensures { EmptyEnds table.old result table.new }
{
    code_of(audit::empty(table))
}

#[unsafe(no_mangle)]
pub extern "C" fn bt_audit(table: &[u16]) -> u32
    ensures { AuditEnds table.now result }
{
    code_of(audit::audit(table))
}

#[unsafe(no_mangle)]
pub extern "C" fn bt_cone(table: &mut [u16], marks: &[u64], apex: &mut u16) -> u32
    ensures { ConeEnds table.old marks.now apex.old result table.new apex.new }
{
    tell(cone::cone(table, marks), apex)
}

#[unsafe(no_mangle)]
pub extern "C" fn bt_merge(table: &mut [u16], a: u16, b: u16, kept: &mut u16) -> u32
    ensures { MergeEnds table.old a b kept.old result table.new kept.new }
{
    tell(merge::merge(table, a, b), kept)
}

#[unsafe(no_mangle)]
pub extern "C" fn bt_weld(table: &mut [u16], a: u16, b: u16, kept: &mut u16) -> u32
    ensures { WeldEnds table.old a b kept.old result table.new kept.new }
{
    tell(weld::weld(table, a, b), kept)
}

#[unsafe(no_mangle)]
pub extern "C" fn bt_compact(table: &mut [u16], list: &mut [u16]) -> u32
    ensures { CompactEnds table.old list.old result table.new list.new }
{
    code_of(compact::compact(table, list))
}

#[unsafe(no_mangle)]
pub extern "C" fn bt_incidence(table: &[u16], cell: u16, face: u16, sum: &mut i64) -> u32
    ensures { IncidenceEnds table.now cell face sum.old result sum.new }
{
    tell(reading::incidence(table, cell, face), sum)
}

#[unsafe(no_mangle)]
pub extern "C" fn bt_boundary(
    table: &[u16],
    chain: &[i64],
    dimension: u16,
    boundary: &mut [i64],
) -> u32
    ensures { BoundaryEnds table.now chain.now dimension boundary.old result boundary.new }
{
    code_of(reading::boundary(table, chain, dimension, boundary))
}

#[unsafe(no_mangle)]
pub extern "C" fn bt_corner(table: &[u16], cell: u16, k: u16, corner: &mut u16) -> u32
    ensures { CornerEnds table.now cell k corner.old result corner.new }
{
    tell(corner::corner(table, cell, k), corner)
}

#[unsafe(no_mangle)]
pub extern "C" fn bt_sheet(table: &[u16], yes: &mut u8) -> u32
    ensures { SheetEnds table.now yes.old result yes.new }
{
    match sheet::sheet(table) {
        Ok(sheet) => {
            *yes = u8::from(sheet);
            0
        }
        Err(r) => r.into(),
    }
}

#[unsafe(no_mangle)]
pub extern "C" fn bt_reduce(table: &[u16], evidence: &mut [u64], additions: &mut [u64; 7]) -> u32
    ensures { ReduceEnds table.now evidence.old additions.old result evidence.new additions.new }
{
    code_of(reducer::reduce(table, evidence, additions))
}

#[unsafe(no_mangle)]
pub extern "C" fn bt_check(
    table: &[u16],
    evidence: &[u64],
    cells: &mut [u16; 7],
    holes: &mut [u16; 7],
) -> u32
    ensures { CheckEnds table.now evidence.now cells.old holes.old result cells.new holes.new }
{
    match checker::check(table, evidence) {
        Ok(counts) => {
            let live = counts.cells;
            let found = counts.holes;
            *cells = live;
            *holes = found;
            0
        }
        Err(r) => r.into(),
    }
}

#[unsafe(no_mangle)]
pub extern "C" fn bt_write(table: &[u16], target: &mut [u8], written: &mut usize) -> u32
    ensures { WriteEnds table.now target.old written.old result target.new written.new }
{
    tell(writer::write(table, target), written)
}

#[unsafe(no_mangle)]
pub extern "C" fn bt_read(table: &mut [u16], file: &[u8]) -> u32
    ensures { ReadEnds table.old file.now result table.new }
{
    code_of(reader::read(table, file))
}

#[unsafe(no_mangle)]
pub extern "C" fn bt_import(table: &mut [u16], text: &[u8]) -> u32
    ensures { ImportEnds table.old text.now result table.new }
{
    code_of(intake::import(table, text))
}
