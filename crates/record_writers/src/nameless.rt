// A factor's and the circulation's record, which bear no name.
ghost use Rattle.records.specs.Bodies.{factor_of, circulation_of};
ghost use Rattle.sheet_bytes.specs.SheetBytes.{factor_body, circulation_body};
ghost use Rattle.sheet_bytes.specs.inner.Returns.{Returns};

use super::Record;
use field_writers::Field;
use record_table::Kind;
use records::{Circulation, Factor};

impl Record for Factor {
    ghost kind = { 6 };

    ghost body = { factor_body };

    ghost returns = { Returns 6 factor_body factor_of };

    fn put(self, out: &mut [u8]) -> usize {
        let mut n = Kind::Factor.code().put(out);
        n += self.target.put(&mut out[n..]);
        n += self.subject.put(&mut out[n..]);
        n += self.index.put(&mut out[n..]);
        n += self.factor.put(&mut out[n..]);
        n
    }
}

impl Record for Circulation {
    ghost kind = { 8 };

    ghost body = { circulation_body };

    ghost returns = { Returns 8 circulation_body circulation_of };

    fn put(self, out: &mut [u8]) -> usize {
        let mut n = Kind::Circulation.code().put(out);
        n += self.flow.put(&mut out[n..]);
        n
    }
}
