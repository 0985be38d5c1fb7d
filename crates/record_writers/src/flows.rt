// A point's, a PAR's and a path's record.
ghost use Rattle.std.specs.Prelude.{◌≡◌};
ghost use Rattle.records.specs.Bodies.{point_of, par_of, path_of};
ghost use Rattle.drafts.specs.Draft.{place_given, point_given};
ghost use Rattle.sheet_bytes.specs.SheetBytes.{place_byte, point_body, par_body, path_body};
ghost use Rattle.sheet_bytes.specs.inner.Marked.{marked_place, marked_point};
ghost use Rattle.sheet_bytes.specs.inner.Returns.{Returns};

use super::Record;
use drafts::DraftPoint;
use field_writers::{Field, put_front};
use record_table::Kind;
use records::{Par, Path};

// Of a scheduled line into zone 0, which no byte says, 255: no sheet has that zone either.
// From a draft's two numbers and no `Place`, which the C interface can't have.
fn place_byte(p: DraftPoint) -> u8
    ensures { result ≡ place_byte (marked_place (place_given p)) }
{
    match (p.line, p.zone) {
        (0, _) => 0,
        (_, 0) => 255,
        (_, zone) => zone,
    }
}

impl Record for DraftPoint {
    ghost kind = { 4 };

    ghost body = { λ p. point_body (marked_point (point_given p)) };

    ghost returns = { λ p. Returns 4 point_body point_of (marked_point (point_given p)) };

    fn put(self, out: &mut [u8]) -> usize {
        let mut n = put_front(Kind::Point.code(), self.name, out);
        n += self.sort.put(&mut out[n..]);
        n += place_byte(self).put(&mut out[n..]);
        n += self.import.put(&mut out[n..]);
        n += self.export.put(&mut out[n..]);
        n += self.wheel_in.put(&mut out[n..]);
        n += self.wheel_out.put(&mut out[n..]);
        n
    }
}

impl Record for Par {
    ghost kind = { 5 };

    ghost body = { par_body };

    ghost returns = { Returns 5 par_body par_of };

    fn put(self, out: &mut [u8]) -> usize {
        let mut n = put_front(Kind::Par.code(), self.name, out);
        n += self.class.put(&mut out[n..]);
        n += self.actual.put(&mut out[n..]);
        n += self.target.put(&mut out[n..]);
        n
    }
}

impl Record for Path {
    ghost kind = { 7 };

    ghost body = { path_body };

    ghost returns = { Returns 7 path_body path_of };

    fn put(self, out: &mut [u8]) -> usize {
        let mut n = put_front(Kind::Path.code(), self.name, out);
        n += self.flow.put(&mut out[n..]);
        n += self.factor.put(&mut out[n..]);
        n
    }
}
