// Merge, the identification of two cells: every face compared, in order; then one pass over the records.
#![tactic(auto)]

ghost use Rattle.std.specs.Prelude.{◌≡◌, ◌+◌, ◌≤◌, ◌<◌, eqb};
ghost use Rattle.counting.specs.Counting.{pick};
ghost use Rattle.table.specs.Kind.{top};
ghost use Rattle.table.specs.Table.{cells_of, dim as dim_of, face as face_of, Valid};
ghost use Rattle.table.specs.Records.{Stored};
ghost use Rattle.audit.specs.Audit.{grounds};
ghost use Rattle.calls.specs.Calls.{verdict, Ends};
ghost use Rattle.merge.specs.Merge.{same_faces, pair_grounds, merge_verdict, merge_answer, merge_leaves, merged};
ghost use Rattle.merge.specs.Writing.{sent_record};

use calls::Refusal;
use table::{Record, Table};

// A number, with the kept one for the one that goes. A merge sends face words so, a weld the words of its map.
pub fn sent(f: u16, kept: u16, gone: u16) -> u16
    ensures { result ≡ pick (eqb f gone) kept f }
{
    if f == gone { kept } else { f }
}

// The first number that is no dimension: no record of a valid table begins with it.
const NO_DIMENSION: u16 = Table::TOP + 1;

// Renames the faces of record c. Its dimension stays, even where it is the freed number: it takes the same step as the faces, only in
// search of a number that it is not. So all eight words of a record go one way, and are compared and written at once.
fn rename(t: &mut [u16], c: usize, kept: u16, gone: u16)
    requires { (c < cells_of t.old) × (dim_of t.old c ≡ top + 1 → ⊥) }
    ensures { Stored c (sent_record kept gone t.old c) t.old t.new }
{
    let dim = sent(Table::dim(t, c), kept, NO_DIMENSION);
    let faces = Table::faces(t, c).map(|f| sent(f, kept, gone));
    Table::put(t, c, Record { dim, faces });
}

// Every face word, in every record, that names the freed number names the kept one; then the freed record's words are free.
fn join(t: &mut [u16], kept: u16, gone: u16)
    requires { (kept < gone) × (gone < cells_of t.old) × Valid t.old }
    ensures { t.new ≡ merged t.old kept gone }
{
    for c in 0..Table::room(t) {
        rename(t, c, kept, gone);
    }
    Table::put(t, gone as usize, Record::FREE);
}

// What the two cells say to being joined, in a table that is valid: refused with 3 to 5, in that order.
fn pair_verdict(t: &[u16], a: u16, b: u16) -> Result<(), Refusal>
    ensures { result ≡ verdict (pair_grounds t.now a b) }
{
    if !Table::live(t, a as usize) || !Table::live(t, b as usize) {
        return Err(Refusal::NotLive);
    }
    if a == b {
        return Err(Refusal::SameCell);
    }
    if Table::dim(t, a as usize) != Table::dim(t, b as usize) {
        return Err(Refusal::DimensionsDiffer);
    }
    Ok(())
}

// Whether a and b may be joined, whatever their faces are: the audit's refusals 1 and 2 first, then those of the pair. A weld asks no more.
pub fn joinable(t: &[u16], a: u16, b: u16) -> Result<(), Refusal>
    ensures { result ≡ verdict (grounds t.now (pair_grounds t.now a b)) }
{
    audit::audit(t)?;
    pair_verdict(t, a, b)
}

// What a merge of a and b is answered: where they may be joined, their seven face words decide, place by place.
fn judge(t: &[u16], a: u16, b: u16) -> Result<(), Refusal>
    ensures { result ≡ merge_verdict t.now a b }
{
    joinable(t, a, b)?;
    let x = Table::faces(t, a as usize);
    let y = Table::faces(t, b as usize);
    if x != y {
        return Err(Refusal::FacesDiffer);
    }
    Ok(())
}

// Joins two different live cells of one dimension with equal face lists. The smaller number is kept. Refused with 1 to 6, in that
// order; then no word changes.
pub fn merge(t: &mut [u16], a: u16, b: u16) -> Result<u16, Refusal>
    ensures { Ends (merge_answer t.old a b) (merge_leaves t.old a b) result t.new }
{
    judge(t, a, b)?;
    let kept = a.min(b);
    let gone = a.max(b);
    join(t, kept, gone);
    Ok(kept)
}
