#![tactic(auto)]
// Bytes read and written whole: all bytes, or a failure.
ghost use Rattle.std.specs.Prelude.{ℕ, ◌≤◌, ◌-◌, ◌≡◌, length, List, Option, Ok, IfErr};
ghost use Rattle.std.specs.IoError.{raw_os_error, error_kind};
ghost use Rattle.std.specs.Io.{ReadsAtMost, WritesAtMost};
ghost use Rattle.std.specs.Io.KnownBytes.{ReadConsumes, WriteAppends};
ghost use Rattle.transfers.specs.Transfer.{failed_by, after as Transfer·after, Received, Delivered, ReadWhole, WroteOn, WroteWhole};
ghost use Rattle.transfers.specs.inner.Steps.{failed, failed_of, Numbered, Moves, NoInterruption, Answered, Leads, ReadOn, ReadLeads, WriteLeads};

use std::io;
use std::io::{ErrorKind, Read, Write};
use std::ops::ControlFlow;
use std::ops::ControlFlow::{Break, Continue};

// The system's numbers of errors.
const EINTR: u32 = 4;

const EIO: u32 = 5;

// The system's number of an error.
#[derive(Clone, Copy)]
pub struct Errno {
    pub number: u32,
}

impl From<Errno> for io::Error {
    ghost from_gives = { Numbered };

    fn from(error: Errno) -> io::Error {
        io::Error::from_raw_os_error(error.number.cast_signed())
    }
}

// Why one call of read or write moved no byte: a signal came before any did, or it failed.
#[derive(Clone, Copy)]
pub enum CallError {
    Interrupted,
    Failed(Errno),
}

// An error that is not the system's has no errno of its own, and counts as EIO.
impl From<io::Error> for CallError {
    ghost from_gives = { λ error call. (call ≡ failed_of (raw_os_error error) (error_kind error)) × NoInterruption call };

    fn from(error: io::Error) -> CallError {
        match error.raw_os_error() {
            Some(errno) => failure(errno),
            None if error.kind() == ErrorKind::Interrupted => CallError::Interrupted,
            None => CallError::Failed(Errno { number: EIO }),
        }
    }
}

// What one call came to: so many bytes moved, or why none did.
pub type Answer = Result<usize, CallError>;

// What a transfer came to: so many bytes, and these are all, or none that count.
pub type Outcome = Result<usize, Errno>;

// What comes after a call: another, with so many bytes moved, or the outcome.
pub type Step = ControlFlow<Outcome, usize>;

// What a call that failed came to, by errno.
pub fn failure(errno: i32) -> CallError
    ensures value { result ≡ failed errno }
    ensures number { NoInterruption result }
{
    match u32::try_from(errno) {
        Ok(EINTR) => CallError::Interrupted,
        Ok(number) => CallError::Failed(Errno { number }),
        Err(_) => CallError::Failed(Errno { number: 0 }),
    }
}

// Here and in the steps reading and writing stay apart: little is there but the promise of the bytes, and that
// differs.
fn read_some<R: Read>(reader: &mut R, part: &mut [u8]) -> Answer
    ensures moves { ReadsAtMost result part.new }
    ensures number { IfErr result NoInterruption }
    ensures gives { ReadConsumes (R.remaining reader.old) (R.remaining reader.new) result part.new }
{
    Ok(reader.read(part)?)
}

fn write_some<W: Write>(writer: &mut W, part: &[u8]) -> Answer
    ensures moves { WritesAtMost result part.now }
    ensures number { IfErr result NoInterruption }
    ensures takes { WriteAppends (W.contents writer.old) (W.contents writer.new) result part.now }
{
    Ok(writer.write(part)?)
}

// After a call that was handed the bytes behind the first `done` of `room`. One that moves none of them brings the
// outcome `none`.
fn after(answer: Answer, done: usize, room: usize, none: Outcome) -> Step
    requires done_le_room { done ≤ room }
    requires moves { Moves (room - done) answer }
    ensures { result ≡ Transfer·after answer done room none }
{
    match answer {
        Ok(n) if n >= room - done => Break(Ok(room)),
        Ok(0) => Break(none),
        Ok(n) => Continue(done + n),
        Err(CallError::Interrupted) => Continue(done),
        Err(CallError::Failed(error)) => Break(Err(error)),
    }
}

#[tactic(auto, using(crate::proofs::Bytes::reads, crate::proofs::Steps::of_part))]
fn read_step<R: Read>(reader: &mut R, buf: &mut [u8], done: usize) -> Step
    requires { done ≤ length buf.old }
    ensures answered { Answered Ok done (length buf.old) result }
    ensures leads { Leads (length buf.old) result }
    ensures bytes { (first : Option (List ℕ)) → ReadOn first (R.remaining reader.old) buf.old done
        → ReadLeads first (R.remaining reader.new) buf.new result }
{
    let room = buf.len();
    let answer = read_some(reader, &mut buf[done..]);
    after(answer, done, room, Ok(done))
}

#[tactic(auto, using(crate::proofs::Bytes::writes, std::proofs::lemmas::List::take_rest))]
fn write_step<W: Write>(writer: &mut W, bytes: &[u8], done: usize) -> Step
    requires { done ≤ length bytes.now }
    ensures answered { Answered (λ (n : ℕ). failed_by 5) done (length bytes.now) result }
    ensures leads { Leads (length bytes.now) result }
    ensures bytes { (first : Option (List ℕ)) → WroteOn first (W.contents writer.old) bytes.now done
        → WriteLeads first (W.contents writer.new) bytes.now result }
{
    let answer = write_some(writer, &bytes[done..]);
    after(answer, done, bytes.len(), Err(Errno { number: EIO }))
}

// Reads until the buffer is full or the input ends: all bytes, or none where a call fails. A call that a signal
// interrupts is made again. A proved loop has to end, so the calls are counted, up to a number that no run uses up.
// The loop stands here and in `write_all`: one for both needs a trait with its laws, and is longer than the two.
#[tactic(auto, using(crate::proofs::Steps::onward))]
pub fn read_all<R: Read>(reader: &mut R, buf: &mut [u8]) -> Outcome
    ensures received { Received (length buf.old) result }
    ensures bytes { ReadWhole (R.remaining reader.old) (R.remaining reader.new) buf.new result }
{
    let mut done = 0;
    for _ in 0..u64::MAX {
        match read_step(reader, buf, done) {
            Continue(n) => done = n,
            Break(outcome) => return outcome,
        }
    }
    Err(Errno { number: EINTR })
}

// Writes all bytes, or fails. A call that moves none of the bytes left is an error, EIO. The rest as in `read_all`.
#[tactic(auto, using(crate::proofs::Steps::onward))]
pub fn write_all<W: Write>(writer: &mut W, bytes: &[u8]) -> Outcome
    ensures delivered { Delivered (length bytes.now) result }
    ensures bytes { WroteWhole (W.contents writer.old) (W.contents writer.new) bytes.now result }
{
    let mut done = 0;
    for _ in 0..u64::MAX {
        match write_step(writer, bytes, done) {
            Continue(n) => done = n,
            Break(outcome) => return outcome,
        }
    }
    Err(Errno { number: EINTR })
}
