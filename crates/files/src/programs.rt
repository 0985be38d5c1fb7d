// What programs do with the files that they are handed: read them, tell what fails.
ghost use Rattle.std.specs.Prelude.{◌≡◌, length};
ghost use Rattle.files.specs.Files.{Loaded};
ghost use Rattle.io.specs.Counts.{IsPrefixLen};

use crate::{STANDARD_OUTPUT, Teller, argument, argument_count};
use std::env::Env;
use std::fs::Files;
use std::io::{Error, Write};
use transfers::Errno;

impl<'a, E: Write> Teller<'a, E> {
    // Reads the file that argument i names, as `load` does.
    pub fn load_argument<R: Env + Files>(&mut self, rt: &R, i: usize, buf: &mut [u8]) -> usize
        ensures loaded { Loaded (length buf.old) result }
        ensures prefix_len { IsPrefixLen result buf.new }
    {
        let mut name = io::buffer();
        let length = argument(rt, i, &mut name);
        self.load(rt, &name[..length], buf)
    }

    // Reads the two files that are named, or sheet.bin and entitle.bin where none are: how many bytes stand at the
    // front of each buffer.
    pub fn load_pair<R: Env + Files>(
        &mut self,
        rt: &R,
        sheet: &mut [u8],
        list: &mut [u8],
    ) -> (usize, usize)
        ensures sheet_loaded { Loaded (length sheet.old) result.0 }
        ensures sheet_prefix_len { IsPrefixLen result.0 sheet.new }
        ensures list_loaded { Loaded (length list.old) result.1 }
        ensures list_prefix_len { IsPrefixLen result.1 list.new }
    {
        if argument_count(rt) == 1 {
            let n = self.load(rt, b"sheet.bin", sheet);
            return (n, self.load(rt, b"entitle.bin", list));
        }
        let n = self.load_argument(rt, 1, sheet);
        (n, self.load_argument(rt, 2, list))
    }

    // Has what was printed stored, or tells why it was not printed.
    pub fn finish_output<R: Files>(&mut self, rt: &R, printed: Result<(), Errno>)
        ensures { self.new.program ≡ self.old.program }
    {
        match printed {
            Ok(()) => self.finish(rt, b"standard output", STANDARD_OUTPUT),
            Err(errno) => self.tell(b"standard output", &Error::from(errno)),
        }
    }
}
