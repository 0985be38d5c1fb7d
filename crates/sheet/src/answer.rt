// A sheet that the reader accepts.
ghost use Rattle.std.specs.Prelude.{◌≡◌};
ghost use Rattle.sheet.specs.Sheet.{read_sheet};
ghost use Rattle.sheet.specs.Sheet as reader;

use layout::Layout;

// The sheet's bytes, and how many records of each kind they hold.
#[derive(Clone, Copy)]
pub struct AcceptedSheet<'a> {
    pub bytes: &'a [u8],
    pub layout: Layout,
    pub ghost accepted: { read_sheet bytes.now ≡ reader.Accepted layout },
}
