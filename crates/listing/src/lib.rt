// What the program `parts` writes, as a function from bytes to bytes: the sketch file of a part list's table of 512 records, or one
// line with the refusal's number.
#![tactic(auto)]

ghost use Rattle.std.specs.Prelude.{◌≡◌, ◌≤◌, length, take};
ghost use Rattle.calls.specs.Numbers.{number_of};
ghost use Rattle.sketch.specs.Form.{longest};
ghost use Rattle.report.specs.Lines.{refused_line};
ghost use Rattle.listing.specs.Listing.{longest_text, Lists};
ghost use Rattle.listing.specs.Steps.{Converted};

use calls::Refusal;
use std::convert::AsSlice;
use table::Table;

// The most bytes of a text that the program takes.
pub const LONGEST_TEXT: usize = 65536;

// The number of the code is that of the definition.
fn same_numbers()
    ensures { LONGEST_TEXT ≡ longest_text }
{}

// Puts the line of a refusal in front, and answers its length.
fn put_line(why: Refusal, target: &mut [u8]) -> usize
    requires { length target.old ≡ longest }
    ensures line { take result target.new ≡ refused_line (number_of why) }
    ensures short { result ≤ longest }
{
    let line = report::refused(why);
    let bytes = line.as_slice();
    let n = bytes.len();
    target[..n].copy_from_slice(bytes);
    n
}

// Takes the list into a blank table, and puts its sketch file in front; the answer is the file's length.
fn convert(text: &[u8], target: &mut [u8]) -> Result<usize, Refusal>
    requires { length target.old ≡ longest }
    ensures { Converted text.now result target.new }
{
    if text.len() > LONGEST_TEXT {
        return Err(Refusal::BadText);
    }
    let mut table = [Table::FREE; Table::CAPACITY * Table::WORDS];
    intake::import(&mut table, text)?;
    writer::write(&table, target)
}

// What is written for a text, in front of the target; the answer is its length.
pub fn listing(text: &[u8], target: &mut [u8]) -> usize
    requires { length target.old ≡ longest }
    ensures lists { Lists text.now (take result target.new) }
    ensures short { result ≤ longest }
{
    match convert(text, target) {
        Ok(n) => n,
        Err(why) => put_line(why, target),
    }
}

// The same, lent: the front of the target.
pub fn listed<'a>(text: &[u8], target: &'a mut [u8; sketch::LONGEST]) -> &'a [u8]
    ensures lists { Lists text.now result.now }
    ensures short { length result.now ≤ longest }
{
    let n = listing(text, target);
    &target[..n]
}
