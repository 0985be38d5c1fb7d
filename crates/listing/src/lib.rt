#![tactic(auto)]
// The printed statement (document 01, 'The printed statement').
ghost use Rattle.std.specs.Prelude.{◌≡◌, []};
ghost use Rattle.io.specs.Counts.{IsPrefixLen};
ghost use Rattle.writers.specs.inner.Wrote.{Wrote};
ghost use Rattle.printout.specs.Listing.{listing, shown};
ghost use Rattle.listing.specs.Buffer.{printed, buffer};

use line_groups::{put_flows, put_payment, put_settled};
use lines::{put_flowgate, put_gtl, put_refusal};
use rows::Refusal;
use statement::{Statement, refused};
use writers::{Text, put};

// Room for every listing and every refusal's line, whatever the figures are: 16 lines, of which the name takes two
// and `gtl` three.
pub const ROOM: usize = 16 * lines::LINE;

// What printing leaves: the statement after row 23, and how many bytes of the output buffer were printed.
// C is handed it, so no `Result`: the refusal is the statement's number.
#[repr(C)]
#[derive(Clone, Copy)]
pub struct Printed {
    pub statement: Statement,
    pub length: usize,
}

// The listing of a statement.
fn put_listing(text: &mut Text<ROOM>, s: &Statement)
    requires { text.old ≡ [] }
    ensures { text.new ≡ listing s.now }
{
    put_flowgate(text, &s.name);
    put_gtl(text, s.gtl, s.first_remainder, s.second_remainder);
    put_flows(text, s);
    put_settled(text, s);
    put_payment(text, s);
}

// The listing, or the one line of a refusal.
#[tactic(auto, unfolding(printout::specs::Listing::shown))]
fn shown(s: &Statement) -> Text<ROOM>
    ensures { result ≡ shown s.now }
{
    let mut text = Text::new();
    if s.refusal == 0 {
        put_listing(&mut text, s);
    } else {
        put_refusal(&mut text, s.refusal);
    }
    text
}

// Prints the listing of an accepted statement at the front of the output buffer. Where the buffer is shorter, the
// statement is refused by row 23. On a refusal, also one that the statement came with, the buffer stays as before.
pub fn print(s: Statement, out: &mut [u8]) -> Printed
    ensures value { result ≡ printed s out.old }
    ensures out_after { out.new ≡ buffer s out.old }
    ensures prefix_len { IsPrefixLen result.length out.new }
{
    if s.refusal != 0 {
        return Printed {
            statement: s,
            length: 0,
        };
    }
    let mut text = Text::new();
    put_listing(&mut text, &s);
    let bytes = text.as_slice();
    if out.len() < bytes.len() {
        return Printed {
            statement: refused(Refusal::OutputTooShort.number()),
            length: 0,
        };
    }
    Printed {
        statement: s,
        length: put(bytes, out),
    }
}

// What the program prints of a statement, at the front of a buffer that has room for it. Returns its length: a count
// and no slice, as in `writers::put`.
pub fn show(s: Statement, out: &mut [u8; ROOM]) -> usize
    ensures { Wrote (shown s) out.old out.new result }
{
    put(shown(&s).as_slice(), out)
}
