// The body of a record, by its kind: a part of the sheet that starts behind the kind byte.
ghost use Rattle.std.specs.Prelude.{◌≡◌, ◌≤◌, length};
ghost use Rattle.names.specs.Names.{name_at};
ghost use Rattle.record_table.specs.Table.{body_length};
ghost use Rattle.records.specs.Bodies.{place_of, head_of, zone_of, unit_of, point_of, par_of, factor_of, path_of, circulation_of};

// A reader for each kind: its fields and its definition are its own, and a trait would need as many impls.
use super::{Circulation, Factor, Head, Par, Path, Place, Point, Unit, Zone};

// A name stays 16 bytes, as the sheet and the C interface have it.
fn name_of(b: &[u8]) -> [u8; 16]
    requires { 16 ≤ length b.now }
    ensures { result ≡ name_at b.now 0 }
{
    fields::bytes_at(b, 0)
}

impl From<u8> for Place {
    ghost from_gives = { λ n place. place ≡ place_of n };

    fn from(n: u8) -> Self {
        if n == 0 { Place::Proxy } else { Place::Line(n) }
    }
}

#[tactic(auto, unfolding(crate::specs::Bodies::head_of))]
pub fn head_of(b: &[u8]) -> Head
    requires { body_length 1 ≤ length b.now }
    ensures { result ≡ head_of b.now }
{
    Head {
        name: name_of(b),
        monitoring_rto: b[16],
        seconds: fields::ube16_at(b, 17),
        monitoring_price: fields::be32_at(b, 19),
        nonmonitoring_price: fields::be32_at(b, 23),
    }
}

#[tactic(auto, unfolding(crate::specs::Bodies::zone_of))]
pub fn zone_of(b: &[u8]) -> Zone
    requires { body_length 2 ≤ length b.now }
    ensures { result ≡ zone_of b.now }
{
    Zone {
        name: name_of(b),
        load: fields::be32_at(b, 16),
        losses: fields::be32_at(b, 20),
    }
}

#[tactic(auto, unfolding(crate::specs::Bodies::unit_of))]
pub fn unit_of(b: &[u8]) -> Unit
    requires { body_length 3 ≤ length b.now }
    ensures { result ≡ unit_of b.now }
{
    Unit {
        name: name_of(b),
        zone: b[16],
        output: fields::be32_at(b, 17),
    }
}

#[tactic(auto, unfolding(crate::specs::Bodies::point_of))]
pub fn point_of(b: &[u8]) -> Point
    requires { body_length 4 ≤ length b.now }
    ensures { result ≡ point_of b.now }
{
    Point {
        name: name_of(b),
        sort: b[16],
        place: Place::from(b[17]),
        import: fields::be32_at(b, 18),
        export: fields::be32_at(b, 22),
        wheel_in: fields::be32_at(b, 26),
        wheel_out: fields::be32_at(b, 30),
    }
}

#[tactic(auto, unfolding(crate::specs::Bodies::par_of))]
pub fn par_of(b: &[u8]) -> Par
    requires { body_length 5 ≤ length b.now }
    ensures { result ≡ par_of b.now }
{
    Par {
        name: name_of(b),
        class: b[16],
        actual: fields::sbe32_at(b, 17),
        target: fields::sbe32_at(b, 21),
    }
}

#[tactic(auto, unfolding(crate::specs::Bodies::factor_of))]
pub fn factor_of(b: &[u8]) -> Factor
    requires { body_length 6 ≤ length b.now }
    ensures { result ≡ factor_of b.now }
{
    Factor {
        target: b[0],
        subject: b[1],
        index: fields::ube16_at(b, 2),
        factor: fields::sbe16_at(b, 4),
    }
}

#[tactic(auto, unfolding(crate::specs::Bodies::path_of))]
pub fn path_of(b: &[u8]) -> Path
    requires { body_length 7 ≤ length b.now }
    ensures { result ≡ path_of b.now }
{
    Path {
        name: name_of(b),
        flow: fields::sbe32_at(b, 16),
        factor: fields::sbe16_at(b, 20),
    }
}

#[tactic(auto, unfolding(crate::specs::Bodies::circulation_of))]
pub fn circulation_of(b: &[u8]) -> Circulation
    requires { body_length 8 ≤ length b.now }
    ensures { result ≡ circulation_of b.now }
{
    Circulation {
        flow: fields::sbe32_at(b, 0),
    }
}
