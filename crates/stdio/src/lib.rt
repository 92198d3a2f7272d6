// Standard input read to its end, and what is made of it written to standard output, for the programs: a read or a write that fails is told
// on standard error, and is never taken for the end of the input or for an answer given. No contract can say which bytes the system hands
// over or takes; what is proved is where they are put, and what becomes of each of them over any reader and writer whose bytes are known.
#![tactic(auto)]

ghost use Rattle.std.specs.Prelude.{◌≡◌, ◌≤◌, ◌<◌, ℕ, length, take, drop, Ok, Some, None, IfOk, OnOk, IsErrOf};
ghost use Rattle.std.specs.Io.KnownBytes.{Appends, Consumes, IsAtEnd, Keeps};
ghost use Rattle.stdio.specs.Read.{turn_of, Further, HasRead};
ghost use Rattle.stdio.specs.Answer.{told, line_of, IsMadeOf};

use std::convert::AsSlice;
use std::fmt::{self, InlineText, Write as _};
use std::fs::{self, File};
use std::io::{self, ErrorKind, Read, Write};

const OUTPUT: &str = "/dev/stdout";

// The most bytes of a line that is told in one write.
const LINE: usize = 1024;

// Why there is no answer, or no whole one.
#[derive(Drop)]
pub enum Failure {
    Unread,
    Unwritten,
}

impl fmt::Display for Failure {
    ghost output = { λ why. Some (told why) };

    fn fmt<W: fmt::Write>(&self, f: &mut fmt::Formatter<W>) -> fmt::Result {
        match self {
            Failure::Unread => write!(f, "standard input could not be read to its end"),
            Failure::Unwritten => write!(f, "standard output could not be written"),
        }
    }
}

// A writer whose bytes go to standard output: what it is given goes to the writer, and a flush asks the disk too, since that may say only
// then that it is full.
#[derive(Drop)]
struct Output<W> {
    rt: HostRuntime,
    to: W,
}

impl<W: Write> Write for Output<W> {
    ghost contents = { λ output. W.contents output.to };

    fn write(&mut self, bytes: &[u8]) -> io::Result<usize> {
        self.to.write(bytes)
    }

    // Standard output has no call of its own for this, so its file is opened by that name. Only a file can say no: a pipe or a terminal has
    // no disk to be asked.
    fn flush(&mut self) -> io::Result<()> {
        self.to.flush()?;
        let Ok(about) = fs::metadata(&self.rt, OUTPUT) else {
            return Ok(());
        };
        if !about.is_file() {
            return Ok(());
        }
        let Ok(file) = File::open(&self.rt, OUTPUT) else {
            return Ok(());
        };
        match file.sync_all() {
            Err(error) if error.kind() == ErrorKind::InvalidInput => Ok(()),
            synced => synced,
        }
    }
}

// What a reader's answer means: how many bytes more there are, or none at the end of the input. An error is a failure whatever its kind,
// also that of a pipe which does not wait and has nothing yet: whether more would come is not known then, so it is not the end.
#[tactic(auto, unfolding(crate::specs::Read::turn_of))]
fn turn(got: io::Result<usize>) -> io::Result<Option<usize>>
    ensures { result ≡ turn_of got }
{
    match got? {
        0 => Ok(None),
        n => Ok(Some(n)),
    }
}

// Reads once, behind the bytes that are there.
fn read_on<R: Read>(from: &mut R, buf: &mut [u8], done: usize) -> io::Result<Option<usize>>
    requires { done ≤ length buf.old }
    ensures further { Further done result buf.old buf.new }
    ensures more { (n : ℕ) → result ≡ Ok (Some n) → Consumes (R.remaining from.old) (R.remaining from.new) (take n (drop done buf.new)) }
    ensures end { result ≡ Ok None → Keeps (R.remaining from.old) (R.remaining from.new) × (done < length buf.old → IsAtEnd (R.remaining from.new)) }
{
    turn(from.read(&mut buf[done..]))
}

// Reads from a reader, as standard input, until it ends, the buffer is full, or a read fails. A pipe may hand the bytes over in pieces.
// The bytes lie at the start of the buffer, and of those behind them nothing is said.
pub fn read_all<R: Read>(from: &mut R, buf: &mut [u8]) -> io::Result<usize>
    ensures placed { HasRead result buf.old buf.new }
    ensures in_order { IfOk result (λ n. Consumes (R.remaining from.old) (R.remaining from.new) (take n buf.new)) }
    ensures to_the_end { IfOk result (λ n. n < length buf.new → IsAtEnd (R.remaining from.new)) }
{
    let mut done = 0;
    while done < buf.len() {
        match read_on(from, buf, done)? {
            Some(n) => done += n,
            None => break,
        }
    }
    Ok(done)
}

// Writes all of the bytes and flushes them, or stops at the first write that takes nothing or fails; a part of them may have been written
// then. A loop of our own, as the one above: std's would try again after a signal, and here every error is a failure.
fn write_all<W: Write>(to: &mut W, bytes: &[u8]) -> io::Result<()>
    ensures whole { OnOk result (Appends (W.contents to.old) (W.contents to.new) bytes.now) }
    ensures front { (n : ℕ) × Appends (W.contents to.old) (W.contents to.new) (take n bytes.now) }
{
    let mut rest = bytes;
    while !rest.is_empty() {
        match to.write(rest)? {
            0 => return Err(io::Error::from(ErrorKind::WriteZero)),
            n => rest = &rest[n..],
        }
    }
    to.flush()
}

// Reads the input to its end, and writes to the output what is made of it.
pub fn answer<R: Read, W: Write, T: AsSlice<u8> + Drop, F: FnOnce(&[u8]) -> T>(
    from: &mut R,
    to: &mut W,
    buf: &mut [u8],
    make: F,
) -> Result<(), Failure>
    requires { F.IsAlwaysCallable make }
    ensures ok { OnOk result ((made : T) × IsMadeOf F.FnOnce make (R.remaining from.old) (R.remaining from.new) (length buf.new) made
        × Appends (W.contents to.old) (W.contents to.new) (T.items made)) }
    ensures unread { IsErrOf result Failure.Unread → Keeps (W.contents to.old) (W.contents to.new) }
    ensures unwritten { IsErrOf result Failure.Unwritten → (made : T) × (n : ℕ)
        × IsMadeOf F.FnOnce make (R.remaining from.old) (R.remaining from.new) (length buf.new) made
        × Appends (W.contents to.old) (W.contents to.new) (take n (T.items made)) }
{
    let n = read_all(from, buf).map_err(|_| Failure::Unread)?;
    let made = make(&buf[..n]);
    write_all(to, made.as_slice()).map_err(|_| Failure::Unwritten)
}

// Tells of a failure in one line. It is made first, so that one write takes it, and the loop above writes it: `eprintln!` would try again
// after a signal. Only a name that has no room in the line goes out in pieces.
fn tell<W: Write>(to: &mut W, name: &str, why: &Failure) -> io::Result<()>
    ensures { OnOk result (Appends (W.contents to.old) (W.contents to.new) (line_of name.now why.now)) }
{
    let mut line = InlineText::<LINE>::new();
    match writeln!(line, "{name}: {why}") {
        Ok(()) => write_all(to, line.as_str().as_bytes()),
        Err(_) => writeln!(to, "{name}: {why}"),
    }
}

// Answers what stands on standard input by what is made of it. The buffer holds what is read, and one byte more than the longest input, so
// that a longer one is seen to be too long. What fails is told in a line on standard error.
pub fn run<T: AsSlice<u8> + Drop, F: FnOnce(&[u8]) -> T>(
    rt: HostRuntime,
    name: &str,
    buf: &mut [u8],
    make: F,
)
    requires { F.IsAlwaysCallable make }
{
    let mut to = Output {
        rt,
        to: rt.stdout(),
    };
    if let Err(failure) = answer(&mut rt.stdin(), &mut to, buf, make) {
        // Where that fails too, there is nobody left to tell.
        let _ = tell(&mut rt.stderr(), name, &failure);
    }
}
