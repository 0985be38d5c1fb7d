#![tactic(auto)]
// The records of an accepted sheet, read where they stand; those of a kind are counted from 0.
// A function for each kind: result, index and the fact of the definition differ, so that a trait needs as many impls.
ghost use Rattle.std.specs.Prelude.{◌≡◌, ◌+◌, ◌<◌};
ghost use Rattle.records.specs.Codes.{subject_code};
ghost use Rattle.records.specs.Content.{head, zone, unit, point, par, path, circulation, factor_for};
ghost use Rattle.due_factors.specs.Due.{Asked};
ghost use Rattle.sheet.specs.Sheet.{content_of};

use record_table::Kind;
use records::{Subject, bodies};
use sheet::AcceptedSheet;

#[tactic(auto, using(sheet::proofs::Accepted::extent_is, sheet::proofs::Accepted::some_head, sheet::proofs::Accepted::head_is))]
pub fn head_at(sheet: &AcceptedSheet<'_>) -> records::Head
    ensures { result ≡ head (content_of sheet.now.bytes.now) }
{
    bodies::head_of(layout::body_at(sheet.bytes, sheet.layout, Kind::Head, 0))
}

#[tactic(auto, using(sheet::proofs::Accepted::extent_is))]
pub fn zone_at(sheet: &AcceptedSheet<'_>, i: usize) -> records::Zone
    requires { i < sheet.now.layout.zones }
    ensures { result ≡ zone (content_of sheet.now.bytes.now) i }
{
    bodies::zone_of(layout::body_at(sheet.bytes, sheet.layout, Kind::Zone, i))
}

#[tactic(auto, using(sheet::proofs::Accepted::extent_is))]
pub fn unit_at(sheet: &AcceptedSheet<'_>, i: usize) -> records::Unit
    requires { i < sheet.now.layout.units }
    ensures { result ≡ unit (content_of sheet.now.bytes.now) i }
{
    bodies::unit_of(layout::body_at(sheet.bytes, sheet.layout, Kind::Unit, i))
}

#[tactic(auto, using(sheet::proofs::Accepted::extent_is))]
pub fn point_at(sheet: &AcceptedSheet<'_>, i: usize) -> records::Point
    requires { i < sheet.now.layout.points }
    ensures { result ≡ point (content_of sheet.now.bytes.now) i }
{
    bodies::point_of(layout::body_at(sheet.bytes, sheet.layout, Kind::Point, i))
}

#[tactic(auto, using(sheet::proofs::Accepted::extent_is))]
pub fn par_at(sheet: &AcceptedSheet<'_>, i: usize) -> records::Par
    requires { i < sheet.now.layout.pars }
    ensures { result ≡ par (content_of sheet.now.bytes.now) i }
{
    bodies::par_of(layout::body_at(sheet.bytes, sheet.layout, Kind::Par, i))
}

// The factor of the i-th of a subject on a target.
pub fn factor_at(sheet: &AcceptedSheet<'_>, target: usize, subject: Subject, i: usize) -> i64
    requires { Asked sheet.now.layout.zones sheet.now.layout.units sheet.now.layout.points sheet.now.layout.pars target (subject_code subject) i }
    ensures { result ≡ factor_for (content_of sheet.now.bytes.now).factors target (subject_code subject) (i + 1) }
{
    let n = due_factors::place_of(sheet.layout.counts_in(), target, subject, i);
    let f = bodies::factor_of(layout::body_at(sheet.bytes, sheet.layout, Kind::Factor, n));
    i64::from(f.factor)
}

#[tactic(auto, using(sheet::proofs::Accepted::extent_is))]
pub fn path_at(sheet: &AcceptedSheet<'_>, i: usize) -> records::Path
    requires { i < sheet.now.layout.paths }
    ensures { result ≡ path (content_of sheet.now.bytes.now) i }
{
    bodies::path_of(layout::body_at(sheet.bytes, sheet.layout, Kind::Path, i))
}

#[tactic(auto, using(sheet::proofs::Accepted::extent_is, sheet::proofs::Accepted::circulation_is))]
pub fn circulation_at(sheet: &AcceptedSheet<'_>) -> records::Circulation
    requires { 0 < sheet.now.layout.circulations }
    ensures { result ≡ circulation (content_of sheet.now.bytes.now) }
{
    bodies::circulation_of(layout::body_at(sheet.bytes, sheet.layout, Kind::Circulation, 0))
}
