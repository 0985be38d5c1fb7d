#![tactic(auto)]
// Files read and written whole: all bytes, or a failure, which is told on standard error.
mod programs;
mod telling;

ghost use Rattle.std.specs.Prelude.{◌≡◌, length, MatchResult};
ghost use Rattle.transfers.specs.Transfer.{bytes_of};
ghost use Rattle.files.specs.Files.{Loaded, Holds, Sent, Written};
ghost use Rattle.io.specs.Counts.{IsPrefixLen};

use std::env::{Env, FillError};
use std::fs::{Files, OpenFile};
use std::io::{ErrorKind, Read, Write};
use std::{fs, io};
pub use telling::Teller;
use transfers::Errno;

// Where the system has this process's standard output as a file.
pub const STANDARD_OUTPUT: &str = "/dev/stdout";

// EILSEQ, of a name that is no UTF-8: std opens files by names of text alone.
const NO_TEXT: i32 = 84;

// How many arguments there are, the program's own name among them.
pub fn argument_count(env: &impl Env) -> usize {
    let past = |i: &usize| matches!(env.arg(*i, &mut []), Err(FillError::NotPresent));
    (0..usize::MAX).find(past).unwrap_or(usize::MAX)
}

// The file name that argument i is: how many bytes stand at the front of the buffer. An argument that is too long
// fills the buffer; with 4,096 bytes that is too long for a path too, and opening it fails with this reason. A count
// and no slice: where a slice of the buffer is handed back, a contract can't say what the buffer holds.
pub fn argument(env: &impl Env, i: usize, name: &mut [u8]) -> usize
    ensures { IsPrefixLen result name.new }
{
    match env.arg(i, name) {
        Ok(n) => n,
        Err(FillError::TooLong) => name.len(),
        Err(FillError::NotPresent) => 0,
    }
}

fn open<R: Files>(rt: &R, name: &[u8]) -> io::Result<R::File> {
    match str::from_utf8(name) {
        Ok(path) => fs::open(rt, path),
        Err(_) => Err(io::Error::from_raw_os_error(NO_TEXT)),
    }
}

// Reads what was opened, up to the buffer's length: all bytes, or none where it was not opened or a call fails.
#[tactic(auto, using(crate::proofs::Unopened::unopened_file))]
fn read_opened<F: Read + Drop>(opened: io::Result<F>, buf: &mut [u8]) -> io::Result<usize>
    ensures bytes { MatchResult opened (λ file. Holds (F.remaining file) buf.new (bytes_of result)) (λ error. bytes_of result ≡ 0) }
    ensures loaded { Loaded (length buf.old) (bytes_of result) }
    ensures prefix_len { IsPrefixLen (bytes_of result) buf.new }
{
    let mut file = opened?;
    Ok(transfers::read_all(&mut file, buf)?)
}

impl<'a, E: Write> Teller<'a, E> {
    // How many bytes of what was opened stand at the front of the buffer. Where it was not opened or not read whole
    // none count, and `program: name: why` is told.
    #[tactic(auto, using(crate::proofs::Unopened::unopened_file))]
    fn load_opened<F: Read + Drop>(
        &mut self,
        name: &[u8],
        opened: io::Result<F>,
        buf: &mut [u8],
    ) -> usize
        ensures bytes { MatchResult opened (λ file. Holds (F.remaining file) buf.new result) (λ error. result ≡ 0) }
        ensures loaded { Loaded (length buf.old) result }
        ensures prefix_len { IsPrefixLen result buf.new }
    {
        match read_opened(opened, buf) {
            Ok(n) => n,
            Err(error) => {
                self.tell(name, &error);
                0
            }
        }
    }

    // Reads the file of this name: how many bytes stand at the front of the buffer, no slice, as in `argument`. One
    // that can't be opened or read whole counts as empty, and `program: name: why` is told.
    pub fn load<R: Files>(&mut self, rt: &R, name: &[u8], buf: &mut [u8]) -> usize
        ensures loaded { Loaded (length buf.old) result }
        ensures prefix_len { IsPrefixLen result buf.new }
    {
        self.load_opened(name, open(rt, name), buf)
    }
}

// Writes all bytes, or answers why not.
pub fn send<W: Write>(writer: &mut W, bytes: &[u8]) -> Result<(), Errno>
    ensures written { Written (W.contents writer.old) (W.contents writer.new) bytes.now result }
    ensures sent { Sent (length bytes.now) result }
{
    transfers::write_all(writer, bytes)?;
    Ok(())
}

// Has a regular file that was written to stored. Some file systems tell only then that the bytes are lost. What is no
// such file, or does not open again, has nothing to tell.
fn stored<R: Files>(rt: &R, path: &str) -> io::Result<()> {
    let is_file = fs::metadata(rt, path).is_ok_and(|metadata| metadata.is_file());
    if !is_file {
        return Ok(());
    }
    let Ok(file) = fs::open(rt, path) else {
        return Ok(());
    };
    match file.sync_data() {
        Err(error) if error.kind() != ErrorKind::InvalidInput => Err(error),
        _ => Ok(()),
    }
}

impl<'a, E: Write> Teller<'a, E> {
    // Has what was written to a file stored; where that fails, `program: name: why` is told.
    pub fn finish<R: Files>(&mut self, rt: &R, name: &[u8], path: &str)
        ensures { self.new.program ≡ self.old.program }
    {
        if let Err(error) = stored(rt, path) {
            self.tell(name, &error);
        }
    }
}
