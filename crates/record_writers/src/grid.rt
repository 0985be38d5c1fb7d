// The head's, a zone's and a unit's record.
ghost use Rattle.records.specs.Bodies.{head_of, zone_of, unit_of};
ghost use Rattle.sheet_bytes.specs.SheetBytes.{head_body, zone_body, unit_body};
ghost use Rattle.sheet_bytes.specs.inner.Returns.{Returns};

use super::Record;
use field_writers::{Field, put_front};
use record_table::Kind;
use records::{Head, Unit, Zone};

impl Record for Head {
    ghost kind = { 1 };

    ghost body = { head_body };

    ghost returns = { Returns 1 head_body head_of };

    fn put(self, out: &mut [u8]) -> usize {
        let mut n = put_front(Kind::Head.code(), self.name, out);
        n += self.monitoring_rto.put(&mut out[n..]);
        n += self.seconds.put(&mut out[n..]);
        n += self.monitoring_price.put(&mut out[n..]);
        n += self.nonmonitoring_price.put(&mut out[n..]);
        n
    }
}

impl Record for Zone {
    ghost kind = { 2 };

    ghost body = { zone_body };

    ghost returns = { Returns 2 zone_body zone_of };

    fn put(self, out: &mut [u8]) -> usize {
        let mut n = put_front(Kind::Zone.code(), self.name, out);
        n += self.load.put(&mut out[n..]);
        n += self.losses.put(&mut out[n..]);
        n
    }
}

impl Record for Unit {
    ghost kind = { 3 };

    ghost body = { unit_body };

    ghost returns = { Returns 3 unit_body unit_of };

    fn put(self, out: &mut [u8]) -> usize {
        let mut n = put_front(Kind::Unit.code(), self.name, out);
        n += self.zone.put(&mut out[n..]);
        n += self.output.put(&mut out[n..]);
        n
    }
}
