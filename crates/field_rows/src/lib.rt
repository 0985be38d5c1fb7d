#![tactic(auto)]
// Rows 8, 9 and 11 of an interval sheet: a record's codes and number fields, each by itself.
ghost use Rattle.std.specs.Prelude.{◌≡◌};
ghost use Rattle.rows.specs.Rows.{outside, beyond};
ghost use Rattle.field_rows.specs.FieldRows.{no_rto, no_type, no_zone_of, place_unknown, head_outside, zone_outside, unit_outside, point_outside, par_outside, path_outside, circulation_outside, path_factor_outside};

use records::{Circulation, Head, Par, Path, Place, Point, Unit, Zone};

const MOST_SECONDS: usize = 900;

const MOST_PRICE: u32 = 400_000;

// Of a load, losses or an output, in tenths of a MW.
const MOST_POWER: u32 = 2_000_000;

// Of a schedule, or the flow of a PAR, a path or the circulation.
const MOST_FLOW: u32 = 200_000;

const MOST_FACTOR: u32 = 10_000;

fn outside(low: usize, n: usize, high: usize) -> bool
    ensures { result ≡ outside low n high }
{
    !(low..=high).contains(&n)
}

// Outside ± most.
#[tactic(auto, using(crate::proofs::SignedBounds::beyond_is))]
fn beyond(most: u32, z: i32) -> bool
    ensures { result ≡ beyond most z }
{
    let most = i64::from(most);
    !(-most..=most).contains(&i64::from(z))
}

pub fn factor_beyond(z: i16) -> bool
    ensures { result ≡ beyond 10000 z }
{
    beyond(MOST_FACTOR, i32::from(z))
}

// Here and below, a code is the sheet's byte: it may be none of those that are known.
pub fn no_rto(code: u8) -> bool
    ensures { result ≡ no_rto code }
{
    !matches!(code, records::NYISO | records::PJM)
}

pub fn no_type(code: u8) -> bool
    ensures { result ≡ no_type code }
{
    !matches!(code, records::COMMON | records::NON_COMMON)
}

pub fn no_zone_of(zones: usize, n: u8) -> bool
    ensures { result ≡ no_zone_of zones n }
{
    outside(1, n as usize, zones)
}

pub fn place_unknown(zones: usize, place: Place) -> bool
    ensures { result ≡ place_unknown zones place }
{
    match place {
        Place::Proxy => false,
        Place::Line(n) => no_zone_of(zones, n),
    }
}

pub fn head_outside(h: Head) -> bool
    ensures { result ≡ head_outside h }
{
    let prices = (MOST_PRICE < h.monitoring_price) | (MOST_PRICE < h.nonmonitoring_price);
    outside(1, h.seconds as usize, MOST_SECONDS) | prices
}

pub fn zone_outside(z: Zone) -> bool
    ensures { result ≡ zone_outside z }
{
    (MOST_POWER < z.load) | (MOST_POWER < z.losses)
}

pub fn unit_outside(u: Unit) -> bool
    ensures { result ≡ unit_outside u }
{
    MOST_POWER < u.output
}

pub fn point_outside(p: Point) -> bool
    ensures { result ≡ point_outside p }
{
    let wheels = (MOST_FLOW < p.wheel_in) | (MOST_FLOW < p.wheel_out);
    (MOST_FLOW < p.import) | ((MOST_FLOW < p.export) | wheels)
}

pub fn par_outside(p: Par) -> bool
    ensures { result ≡ par_outside p }
{
    beyond(MOST_FLOW, p.actual) | beyond(MOST_FLOW, p.target)
}

pub fn path_outside(p: Path) -> bool
    ensures { result ≡ path_outside p }
{
    beyond(MOST_FLOW, p.flow)
}

pub fn circulation_outside(c: Circulation) -> bool
    ensures { result ≡ circulation_outside c }
{
    beyond(MOST_FLOW, c.flow)
}

pub fn path_factor_outside(p: Path) -> bool
    ensures { result ≡ path_factor_outside p }
{
    factor_beyond(p.factor)
}
