#![tactic(auto)]
// The weighted sums of steps 3 to 5: what each record brings, times its factor on a target.
// What a unit, point or PAR brings stands in its record; a zone brings its zone load, which is lent.
ghost use Rattle.std.specs.Prelude.{◌≡◌, ◌<◌, ◌≤◌, nat_abs, ◌-ℤ◌, ◌*ℤ◌};
ghost use Rattle.due_factors.specs.Due.{Asked};
ghost use Rattle.records.specs.Codes.{class_code, subject_code, unit_subject, point_subject, par_subject};
ghost use Rattle.sheet.specs.Sheet.{content_of};
ghost use Rattle.figures.specs.Flow.{factor, load_term, weighted_load, net_schedule};
ghost use Rattle.zone_sums.specs.ByZone as by_zone;
ghost use Rattle.weighted_sums.specs.inner.Weighted.{OnTarget, tenfold_in, weighted_term, weighted_sum};

use records::{Class, Par, Point, Subject};
use sheet::AcceptedSheet;

// The flowgate as a target, which alone has factors of PARs; the PAR of index i is target i + 1. Numbers, as in the
// sheet. They stand beside the sheet, with a clause: a struct of a sheet and a target would be made for each PAR.
pub const FLOWGATE: usize = 0;

// Ten times a record's power, if the record is of the class asked. of: the record's code, a number in the C interface.
#[tactic(auto, unfolding(crate::specs::inner::Weighted::tenfold_in))]
fn tenfold_in(of: u8, class: u8, power: i64) -> i64
    requires { nat_abs power ≤ 400000 }
    ensures { result ≡ tenfold_in of class power }
{
    if of == class { power * 10 } else { 0 }
}

#[tactic(auto, unfolding(figures::specs::Flow::net_schedule))]
fn net_schedule(p: &Point) -> i64
    ensures { result ≡ net_schedule p.now }
{
    i64::from(p.import) + i64::from(p.wheel_in) - i64::from(p.export) - i64::from(p.wheel_out)
}

fn over_target(p: &Par) -> i64
    ensures { result ≡ p.now.actual -ℤ p.now.target }
{
    i64::from(p.actual) - i64::from(p.target)
}

// A power times the factor, on the target, of the record that brings it.
fn weigh(sheet: &AcceptedSheet<'_>, target: usize, subject: Subject, i: usize, power: i64) -> i64
    requires { Asked sheet.now.layout.zones sheet.now.layout.units sheet.now.layout.points sheet.now.layout.pars target (subject_code subject) i × (nat_abs power ≤ 10400000) }
    ensures { result ≡ power *ℤ factor (content_of sheet.now.bytes.now) target (subject_code subject) i }
{
    let factor = sheet_records::factor_at(sheet, target, subject, i);
    power * factor
}

fn output_term(sheet: &AcceptedSheet<'_>, target: usize, i: usize) -> i64
    requires { (target ≤ sheet.now.layout.pars) × (i < sheet.now.layout.units) }
    ensures { result ≡ weighted_term (content_of sheet.now.bytes.now) unit_subject 0 target i }
{
    let u = sheet_records::unit_at(sheet, i);
    weigh(sheet, target, Subject::Unit, i, i64::from(u.output))
}

fn point_term(sheet: &AcceptedSheet<'_>, class: u8, target: usize, i: usize) -> i64
    requires { (target ≤ sheet.now.layout.pars) × (i < sheet.now.layout.points) }
    ensures { result ≡ weighted_term (content_of sheet.now.bytes.now) point_subject class target i }
{
    let p = sheet_records::point_at(sheet, i);
    let power = tenfold_in(p.sort, class, net_schedule(&p));
    weigh(sheet, target, Subject::Point, i, power)
}

fn par_term(sheet: &AcceptedSheet<'_>, class: u8, i: usize) -> i64
    requires { i < sheet.now.layout.pars }
    ensures { result ≡ weighted_term (content_of sheet.now.bytes.now) par_subject class 0 i }
{
    let p = sheet_records::par_at(sheet, i);
    let power = tenfold_in(p.class, class, over_target(&p));
    weigh(sheet, FLOWGATE, Subject::Par, i, power)
}

fn load_term(sheet: &AcceptedSheet<'_>, zone_loads: &[i64; 32], target: usize, z: usize) -> i64
    requires { (zone_loads.now ≡ by_zone.zone_loads (content_of sheet.now.bytes.now)) × (target ≤ sheet.now.layout.pars) × (z < sheet.now.layout.zones) }
    ensures { result ≡ load_term (content_of sheet.now.bytes.now) target z }
{
    weigh(sheet, target, Subject::Zone, z, zone_loads[z])
}

// Over all units: document 01's A.
pub fn output(sheet: &AcceptedSheet<'_>, target: usize) -> i64
    requires { target ≤ sheet.now.layout.pars }
    ensures { result ≡ weighted_sum (content_of sheet.now.bytes.now) unit_subject 0 target }
{
    sums::sum_to(sheet.layout.units, |i| output_term(sheet, target, i))
}

fn points_of(sheet: &AcceptedSheet<'_>, class: u8, target: usize) -> i64
    requires { target ≤ sheet.now.layout.pars }
    ensures { result ≡ weighted_sum (content_of sheet.now.bytes.now) point_subject class target }
{
    sums::sum_to(sheet.layout.points, |i| point_term(sheet, class, target, i))
}

fn pars_of(sheet: &AcceptedSheet<'_>, class: u8) -> i64
    ensures { result ≡ weighted_sum (content_of sheet.now.bytes.now) par_subject class 0 }
{
    sums::sum_to(sheet.layout.pars, |i| par_term(sheet, class, i))
}

// Over the points of a type.
pub fn points(sheet: &AcceptedSheet<'_>, class: Class, target: usize) -> i64
    requires { target ≤ sheet.now.layout.pars }
    ensures { result ≡ weighted_sum (content_of sheet.now.bytes.now) point_subject (class_code class) target }
{
    points_of(sheet, class.code(), target)
}

// Over the PARs of a class, on the flowgate.
pub fn pars(sheet: &AcceptedSheet<'_>, class: Class) -> i64
    ensures { result ≡ weighted_sum (content_of sheet.now.bytes.now) par_subject (class_code class) 0 }
{
    pars_of(sheet, class.code())
}

// Over all records of a subject other than zones; where these are points or PARs, over those of the class, which may be
// any byte.
#[tactic(auto, using(crate::proofs::Laws::units_of_no_class))]
pub fn weighted(sheet: &AcceptedSheet<'_>, subject: Subject, class: u8, target: usize) -> i64
    requires { OnTarget sheet.now.layout.pars target (subject_code subject) }
    ensures { result ≡ weighted_sum (content_of sheet.now.bytes.now) (subject_code subject) class target }
{
    match subject {
        Subject::Unit => output(sheet, target),
        Subject::Point => points_of(sheet, class, target),
        _ => pars_of(sheet, class),
    }
}

// Over all zones: document 01's N.
pub fn weighted_load(sheet: &AcceptedSheet<'_>, zone_loads: &[i64; 32], target: usize) -> i64
    requires { (zone_loads.now ≡ by_zone.zone_loads (content_of sheet.now.bytes.now)) × (target ≤ sheet.now.layout.pars) }
    ensures { result ≡ weighted_load (content_of sheet.now.bytes.now) target }
{
    sums::sum_to(
        sheet.layout.zones,
        |z| load_term(sheet, zone_loads, target, z),
    )
}
