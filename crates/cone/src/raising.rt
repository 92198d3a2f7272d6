// The new cells are written: a cone over each marked cell, by rising number, and the apex. Records of live cells are never written, so
// the old faces are read from the table itself. A part of the call, seen in this crate alone.
ghost use Rattle.std.specs.Prelude.{◌≡◌, get_or};
ghost use Rattle.table.specs.Records.{Alike};
ghost use Rattle.cone.specs.Cone.{coned};
ghost use Rattle.cone.specs.Parts.{record_by, Coneable, ConeableAs, ConeStored, Ready};

use super::marks::marks_end;
use super::numbers::Numbers;
use table::{Record, Table};

// The record of the cone over cell s, where the cone has dimension DIM and s has so many faces: the apex first, which stays where s is a
// point, over it the cones of the faces of s, after them s, and none beyond.
fn cone_record<const DIM: usize, const USED: usize>(
    t: &[u16],
    s: usize,
    numbers: &Numbers,
) -> Record
    requires { ConeableAs t.now numbers.now s DIM USED }
    ensures { Alike (record { dim = result.dim; face = λ j. get_or result.faces j 0 }) (record_by t.now numbers.now s) }
{
    let below = Table::faces(t, s);
    let mut faces = [Table::FREE; Table::FACES];
    faces[0] = numbers.apex;
    for j in 0..USED {
        faces[j] = numbers.cones[below[j] as usize];
    }
    faces[DIM] = s as u16;
    Record {
        dim: DIM as u16,
        faces,
    }
}

// Writes the cone over cell s into the record that its number names. There is an arm for each dimension below the top, with its two
// numbers as constants: so the faces are written by straight code, each at a known place.
fn put_cone(t: &mut [u16], s: usize, numbers: &Numbers)
    requires { Coneable t.old numbers.now s }
    ensures { ConeStored t.old numbers.now s t.new }
{
    let cone = match Table::dim(t, s) {
        0 => cone_record::<1, 0>(t, s, numbers),
        1 => cone_record::<2, 2>(t, s, numbers),
        2 => cone_record::<3, 3>(t, s, numbers),
        3 => cone_record::<4, 4>(t, s, numbers),
        4 => cone_record::<5, 5>(t, s, numbers),
        _ => cone_record::<6, 6>(t, s, numbers),
    };
    Table::put(t, numbers.cones[s] as usize, cone);
}

// Writes every new cell.
pub fn raise(t: &mut [u16], marks: &[u64], numbers: &Numbers)
    requires { Ready t.old marks.now numbers.now }
    ensures { t.new ≡ coned t.old marks.now }
{
    for s in 0..marks_end(marks) {
        if bitset::has(marks, s) {
            put_cone(t, s, numbers);
        }
    }
    let point = Record {
        dim: 0,
        ..Record::FREE
    };
    Table::put(t, numbers.apex as usize, point);
}
