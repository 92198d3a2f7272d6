// A table as rows, reducer and checker read it: its size, and of a number its dimension, its face places and the words there. These
// functions alone look into a table's words for them; the methods of a view hand its words on to them.
ghost use Rattle.std.specs.Prelude.{◌≡◌, true, ◌<◌};
ghost use Rattle.counting.specs.Counting.{listed};
ghost use Rattle.homology.specs.Evidence.{cells_in};
ghost use Rattle.table.specs.Kind.{dimensions};
ghost use Rattle.complex.specs.View.{view_of, Frame};
ghost use Rattle.complex.specs.Cells.{cells};

use table::Table;

// How many numbers the table has.
pub fn size(t: &[u16]) -> usize
    ensures { result ≡ (view_of t.now).size }
{
    Table::room(t)
}

// The dimension of number c; that of a free number lies above the largest.
pub fn dim(t: &[u16], c: usize) -> usize
    requires { c < (view_of t.now).size }
    ensures { result ≡ (view_of t.now).dim c }
{
    Table::dim(t, c) as usize
}

// How many face places number c has.
pub fn places(t: &[u16], c: usize) -> usize
    requires { c < (view_of t.now).size }
    ensures { result ≡ (view_of t.now).places c }
{
    Table::used(Table::dim(t, c))
}

// The number at face place j of a live cell.
pub fn face(t: &[u16], c: usize, j: usize) -> usize
    requires frame { Frame (view_of t.now) }
    requires c_value { (view_of t.now).live c ≡ true }
    requires j_bound { j < (view_of t.now).places c }
    ensures { result ≡ (view_of t.now).face c j }
{
    Table::face(t, c, j) as usize
}

// How many live cells there are of each dimension.
pub fn census(t: &[u16]) -> [u16; Table::DIMENSIONS]
    requires { Frame (view_of t.now) }
    ensures { result ≡ listed dimensions (cells_in (cells t.now)) }
{
    Table::census(t)
}

// The words of a table of which evidence may be asked, as those of every valid table.
#[derive(Clone, Copy)]
pub struct View<'a> {
    pub words: &'a [u16],
    ghost frame: { Frame (view_of words.now) },
}

impl<'a> View<'a> {
    ghost use Rattle.rows.specs.Seen.{seen, cells_of};

    // How many numbers the table has.
    pub fn size(self) -> usize
        ensures { result ≡ (seen self.entry).size }
    {
        size(self.words)
    }

    // The dimension of number c; that of a free number lies above the largest.
    pub fn dim(self, c: usize) -> usize
        requires { c < (seen self).size }
        ensures { result ≡ (seen self.entry).dim c }
    {
        dim(self.words, c)
    }

    // How many face places number c has.
    pub fn places(self, c: usize) -> usize
        requires { c < (seen self).size }
        ensures { result ≡ (seen self.entry).places c }
    {
        places(self.words, c)
    }

    // The number at face place j of a live cell.
    pub fn face(self, c: usize, j: usize) -> usize
        requires c_live { (seen self).live c ≡ true }
        requires j_bound { j < (seen self).places c }
        ensures { result ≡ (seen self.entry).face c j }
    {
        face(self.words, c, j)
    }

    // How many live cells there are of each dimension.
    pub fn census(self) -> [u16; Table::DIMENSIONS]
        ensures { result ≡ listed dimensions (cells_in (cells_of self.entry)) }
    {
        census(self.words)
    }
}
