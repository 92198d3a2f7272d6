// The faces of live cells added into a set.
ghost use Rattle.std.specs.Prelude.{◌≡◌, true, length};
ghost use Rattle.bitset.specs.Bits.{full_width};
ghost use Rattle.rows.specs.Rows.{FacesAdded};
ghost use Rattle.rows.specs.Seen.{cells_of};
ghost use Rattle.rows.specs.Word.{WordLive, WordAdded};

use super::view::View;

// Adds the faces of a live cell into a set, each face place once, so that a face named twice is in as before.
pub fn add_faces(view: View<'_>, c: usize, into: &mut [u64])
    requires c_live { (cells_of view).live c ≡ true }
    requires into_len { length into.old ≡ full_width }
    ensures { FacesAdded (cells_of view.entry) c into.old into.new }
{
    let places = view.places(c);
    for j in 0..places {
        bitset::toggle(into, view.face(c, j));
    }
}

// Adds the faces of the cells that word w of a row stands for, from the lowest bit up; only bits that are set cost a turn.
pub fn add_word(view: View<'_>, w: usize, word: u64, into: &mut [u64])
    requires word_live { WordLive (cells_of view) w word }
    requires into_len { length into.old ≡ full_width }
    ensures { WordAdded (cells_of view.entry) w word into.old into.new }
{
    let mut v = word;
    // The word loses its lowest bit in each turn.
    while v != 0 {
        let k = bitset::lowest(v);
        v ^= 1 << k;
        add_faces(view, 64 * w + k, into);
    }
}
