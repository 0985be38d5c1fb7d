// The line on standard error that tells of a failure.
ghost use Rattle.std.specs.Prelude.{◌+◌, ◌≡◌, ◌≤◌, length};
ghost use Rattle.io.specs.Counts.{IsPrefixLen};
ghost use Rattle.writers.specs.inner.Wrote.{Wrote};
ghost use Rattle.files.specs.inner.Telling.{told};

use std::io;
use std::io::{Cursor, Write};
use writers::put;

// What failed, as the line begins.
fn put_told(program: &[u8], what: &[u8], out: &mut [u8]) -> usize
    requires { length program.now + 2 + length what.now ≤ length out.old }
    ensures wrote { Wrote (told program.now what.now) out.old out.new result }
    ensures prefix_len { IsPrefixLen result out.new }
{
    let mut n = put(program, out);
    n += put(b": ", &mut out[n..]);
    n += put(what, &mut out[n..]);
    n
}

// An error's text as std has it, without the number that std puts behind the system's own: ` (os error 2)`.
fn reason<'a>(error: &io::Error, text: &'a [u8]) -> &'a [u8] {
    let bracket = text.iter().rposition(|byte| *byte == b'(');
    match (error.raw_os_error(), bracket) {
        (Some(_), Some(bracket)) => &text[..bracket.saturating_sub(1)],
        _ => text,
    }
}

// The reason is told as far as there is room.
fn tell_line<E: Write>(errors: &mut E, what: &[u8], error: &io::Error) {
    let mut text = Cursor::new([0u8; 128]);
    let _written = write!(text, "{error}");
    let length = text.position().min(128) as usize;
    for part in [what, b": ", reason(error, &text.get_ref()[..length]), b"\n"] {
        let _written = transfers::write_all(errors, part);
    }
}

// Tells what failed, on a stream of errors, by the program's name.
#[derive(Drop)]
pub struct Teller<'a, E> {
    pub program: &'a [u8],
    pub errors: E,
}

impl<'a, E: Write> Teller<'a, E> {
    // `program: what: why`, the reason being the error's text. Names that are too long for the line are told without
    // the program's.
    pub fn tell(&mut self, what: &[u8], error: &io::Error)
        ensures { self.new.program ≡ self.old.program }
    {
        if self.program.len() > 64 || what.len() > 4096 {
            tell_line(&mut self.errors, what, error);
            return;
        }
        let mut line = [0u8; 4162];
        let n = put_told(self.program, what, &mut line);
        tell_line(&mut self.errors, &line[..n], error);
    }
}
