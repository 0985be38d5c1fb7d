#![tactic(auto)]
// The whole way: a sheet and an entitlement list are settled, and the statement is printed. Refusals 1 to 23.
ghost use Rattle.std.specs.Prelude.{◌≡◌, length};
ghost use Rattle.io.specs.Counts.{IsPrefixLen};
ghost use Rattle.writers.specs.Written.{written};
ghost use Rattle.report.specs.Report.{reported, left, output};

use listing::Printed;

// Room for whatever the program prints.
pub const OUTPUT_ROOM: usize = listing::ROOM;

// The statement with the listing's length, and the listing at the front of the output buffer. On a refusal the buffer
// stays as before.
pub fn report(sheet: &[u8], list: &[u8], out: &mut [u8]) -> Printed
    ensures value { result ≡ reported sheet.now list.now out.old }
    ensures out_after { out.new ≡ left sheet.now list.now out.old }
    ensures prefix_len { IsPrefixLen result.length out.new }
{
    let s = settlement::settle(sheet, list);
    listing::print(s, out)
}

// The program's standard output at the front of a buffer that has room for it. Returns its length: a count and no
// slice, as in `writers::put`.
pub fn write_output(sheet: &[u8], list: &[u8], out: &mut [u8; OUTPUT_ROOM]) -> usize
    ensures value { result ≡ length (output sheet.now list.now) }
    ensures out_after { out.new ≡ written (output sheet.now list.now) out.old }
    ensures prefix_len { IsPrefixLen result out.new }
{
    let statement = settlement::settle(sheet, list);
    listing::show(statement, out)
}
