#![tactic(auto)]
// Rows 2 to 13 and 28 of an interval sheet, by a record's fields and by how many records of each kind there are.
ghost use Rattle.std.specs.Prelude.{◌≡◌, not};
ghost use Rattle.rows.specs.Rows.{row};
ghost use Rattle.rows.specs.Refusals.{row_of};
ghost use Rattle.names.specs.Names.{name_ok};
ghost use Rattle.record_table.specs.inner.Kinds.{Named};
ghost use Rattle.records.specs.Content.{bears};
ghost use Rattle.due_factors.specs.Due.{due_list};
ghost use Rattle.due_factors.specs.inner.Places.{Few};
ghost use Rattle.record_rows.specs.Rows.{front_row, head_row, zone_row, unit_row, point_row, par_row, factor_row, path_row, circulation_row, end_row};

use due_factors::{Counts, Due};
use record_table::Kind;
use records::{Circulation, Factor, Head, Par, Path, Point, Unit, Zone};
use rows::{Refusal, row};

// Rows 2 to 5 of a record with this kind byte and `left` bytes behind it; its kind where none of them fits.
// `last` is the kind's byte of the one before, `earlier` how many of its own kind stand before.
// `last` is no `Option<Kind>`: the definition counts kinds from 1, with 0 before the first.
#[tactic(auto, unfolding(crate::specs::Rows::front_row))]
pub fn front_row(last: u8, byte: u8, earlier: usize, left: usize) -> Result<Kind, Refusal>
    ensures { (row_of result ≡ front_row last byte earlier left 0) × Named byte result }
{
    let kind = Kind::try_from(byte)?;
    let short = left < kind.body_length();
    let falls = (byte < last) | ((kind == Kind::Head) & (1 <= earlier));
    let limited = !matches!(kind, Kind::Head | Kind::Factor);
    let surplus = limited & (kind.most() <= earlier);
    row(Refusal::CutShort, short)?;
    row(Refusal::OutOfOrder, falls)?;
    row(Refusal::OneTooMany, surplus)?;
    Ok(kind)
}

// Rows 6 and 7. Here and below, `well` is whether the name is well formed.
// It comes from the caller, who judges the name once, where it stands in the sheet, for all six kinds that have one.
fn name_rows(well: bool, repeated: bool) -> Result<(), Refusal>
    ensures { row_of result ≡ row 6 (not well) (row 7 repeated 0) }
{
    row(Refusal::BadName, !well)?;
    row(Refusal::RepeatedName, repeated)
}

#[tactic(auto, unfolding(crate::specs::Rows::head_row))]
pub fn head_row(well: bool, h: Head) -> Result<(), Refusal>
    requires { well ≡ name_ok h.name }
    ensures { row_of result ≡ head_row h }
{
    name_rows(well, false)?;
    row(Refusal::UnknownCode, field_rows::no_rto(h.monitoring_rto))?;
    row(Refusal::NumberOutside, field_rows::head_outside(h))
}

#[tactic(auto, unfolding(crate::specs::Rows::zone_row))]
pub fn zone_row(well: bool, repeated: bool, z: Zone) -> Result<(), Refusal>
    requires { well ≡ name_ok z.name }
    ensures { row_of result ≡ zone_row repeated z }
{
    name_rows(well, repeated)?;
    row(Refusal::NumberOutside, field_rows::zone_outside(z))
}

#[tactic(auto, unfolding(crate::specs::Rows::unit_row))]
pub fn unit_row(well: bool, zones: usize, repeated: bool, u: Unit) -> Result<(), Refusal>
    requires { well ≡ name_ok u.name }
    ensures { row_of result ≡ unit_row zones repeated u }
{
    name_rows(well, repeated)?;
    row(Refusal::UnknownCode, field_rows::no_zone_of(zones, u.zone))?;
    row(Refusal::NumberOutside, field_rows::unit_outside(u))
}

#[tactic(auto, unfolding(crate::specs::Rows::point_row))]
pub fn point_row(well: bool, zones: usize, repeated: bool, p: Point) -> Result<(), Refusal>
    requires { well ≡ name_ok p.name }
    ensures { row_of result ≡ point_row zones repeated p }
{
    name_rows(well, repeated)?;
    let codes = field_rows::no_type(p.sort) | field_rows::place_unknown(zones, p.place);
    row(Refusal::UnknownCode, codes)?;
    row(Refusal::NumberOutside, field_rows::point_outside(p))
}

#[tactic(auto, unfolding(crate::specs::Rows::par_row))]
pub fn par_row(well: bool, repeated: bool, p: Par) -> Result<(), Refusal>
    requires { well ≡ name_ok p.name }
    ensures { row_of result ≡ par_row repeated p }
{
    name_rows(well, repeated)?;
    row(Refusal::UnknownCode, field_rows::no_type(p.class))?;
    row(Refusal::NumberOutside, field_rows::par_outside(p))
}

// Whether the factor is the one for d. No derived `==`: a factor has a value besides, and fields of other widths.
#[tactic(auto, unfolding(records::specs::Content::bears))]
fn bears(f: Factor, d: Due) -> bool
    ensures { result ≡ bears f d.target d.subject d.index }
{
    (f.target as usize == d.target) & ((f.subject == d.subject) & (f.index as usize == d.index))
}

// Rows 10 and 11 of the factor behind `earlier` others.
#[tactic(auto, unfolding(crate::specs::Rows::factor_row))]
pub fn factor_row(n: Counts, earlier: usize, f: Factor) -> Result<(), Refusal>
    requires { Few n }
    ensures { row_of result ≡ factor_row (due_list n) earlier f }
{
    if due_factors::due_count(n) <= earlier {
        return Err(Refusal::NotDue);
    }
    row(Refusal::NotDue, !bears(f, due_factors::due_at(n, earlier)))?;
    row(Refusal::FactorOutside, field_rows::factor_beyond(f.factor))
}

#[tactic(auto, unfolding(crate::specs::Rows::path_row))]
pub fn path_row(well: bool, named_before: bool, path: Path) -> Result<(), Refusal>
    requires { well ≡ name_ok path.name }
    ensures { row_of result ≡ path_row named_before path }
{
    name_rows(well, named_before)?;
    row(Refusal::NumberOutside, field_rows::path_outside(path))?;
    let factor = field_rows::path_factor_outside(path);
    row(Refusal::FactorOutside, factor)
}

#[tactic(auto, unfolding(crate::specs::Rows::circulation_row))]
pub fn circulation_row(c: Circulation) -> Result<(), Refusal>
    ensures { row_of result ≡ circulation_row c }
{
    row(Refusal::NumberOutside, field_rows::circulation_outside(c))
}

// Rows 12, 13 and 28. The counts come one by one: `Layout`, which has them together, is of a crate above.
#[tactic(auto, unfolding(crate::specs::Rows::end_row))]
pub fn end_row(n: Counts, factors: usize, paths: usize, circulations: usize) -> Result<(), Refusal>
    requires { Few n }
    ensures { row_of result ≡ end_row n factors paths circulations }
{
    row(Refusal::NoZoneOrUnit, (n.zones == 0) | (n.units == 0))?;
    row(Refusal::StillDue, factors < due_factors::due_count(n))?;
    let lake = (1 <= paths) | (1 <= circulations);
    let in_part = lake & ((paths < 4) | (circulations < 1));
    row(Refusal::LakeInPart, in_part)
}
