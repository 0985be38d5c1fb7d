#![tactic(auto)]
// A sheet's draft: its records in arrays, with zeros behind them; and a draft of zeros.
ghost use Rattle.std.specs.Prelude.{◌≡◌, ℕ, List, ◌<◌, ◌≤◌, length, get_or};
ghost use Rattle.records.specs.Content.{no_content, no_factor};
ghost use Rattle.drafts.specs.Draft.{cells, draft_of};
ghost use Rattle.sheet.specs.Sheet.{content_of};

use drafts::{Draft, DraftPoint};
use record_table::Kind;
use records::{Circulation, Factor, Head, Par, Path, Unit, Zone, bodies};
use sheet::AcceptedSheet;

// What stands where there is no record. Constants and no `Default`: over its calls `draft_of` isn't proved.
const NO_HEAD: Head = Head {
    name: [0; 16],
    monitoring_rto: 0,
    seconds: 0,
    monitoring_price: 0,
    nonmonitoring_price: 0,
};

const NO_ZONE: Zone = Zone {
    name: [0; 16],
    load: 0,
    losses: 0,
};

const NO_UNIT: Unit = Unit {
    name: [0; 16],
    zone: 0,
    output: 0,
};

const NO_POINT: DraftPoint = DraftPoint {
    name: [0; 16],
    sort: 0,
    line: 0,
    zone: 0,
    import: 0,
    export: 0,
    wheel_in: 0,
    wheel_out: 0,
};

const NO_PAR: Par = Par {
    name: [0; 16],
    class: 0,
    actual: 0,
    target: 0,
};

const NO_FACTOR: Factor = Factor {
    target: 0,
    subject: 0,
    index: 0,
    factor: 0,
};

const NO_PATH: Path = Path {
    name: [0; 16],
    flow: 0,
    factor: 0,
};

const NO_CIRCULATION: Circulation = Circulation { flow: 0 };

#[tactic(auto, unfolding(drafts::specs::Draft::draft_of))]
pub fn no_draft() -> Draft
    ensures { result ≡ draft_of no_content }
{
    Draft {
        head: NO_HEAD,
        zone_count: 0,
        zones: [NO_ZONE; drafts::ZONES],
        unit_count: 0,
        units: [NO_UNIT; drafts::UNITS],
        point_count: 0,
        points: [NO_POINT; drafts::POINTS],
        par_count: 0,
        pars: [NO_PAR; drafts::PARS],
        factor_count: 0,
        factors: [NO_FACTOR; drafts::FACTORS],
        path_count: 0,
        paths: [NO_PATH; drafts::PATHS],
        circulation_count: 0,
        circulations: [NO_CIRCULATION; drafts::CIRCULATIONS],
    }
}

fn factor_at(sheet: &AcceptedSheet<'_>, i: usize) -> Factor
    requires { i < sheet.now.layout.factors }
    ensures { result ≡ get_or (content_of sheet.now.bytes.now).factors i no_factor }
{
    bodies::factor_of(layout::body_at(sheet.bytes, sheet.layout, Kind::Factor, i))
}

// An array of n records, with `none` behind them. No `array::from_fn`: it asks how large a record is in memory, which
// nothing here says of an R, and its contract over a closure that calls another isn't proved.
fn cells_of<R: Copy, const N: usize, F: Fn(usize) -> R>(none: R, n: usize, read: F) -> [R; N]
    requires room { n ≤ N }
    requires callable { (i : ℕ) → i < n → F.pre read i }
    ensures { (l : List R) → n ≡ length l → ((i : ℕ) (r : R) → i < n → F.post read i r → r ≡ get_or l i none) → result ≡ cells N none l }
{
    let mut cells = [none; N];
    for i in 0..n {
        cells[i] = read(i);
    }
    cells
}

pub fn draft_of(sheet: &AcceptedSheet<'_>) -> Draft
    ensures { result ≡ draft_of (content_of sheet.now.bytes.now) }
{
    let l = sheet.layout;
    let head = sheet_records::head_at(sheet);
    let zones = cells_of(NO_ZONE, l.zones, |i| sheet_records::zone_at(sheet, i));
    let units = cells_of(NO_UNIT, l.units, |i| sheet_records::unit_at(sheet, i));
    let points = cells_of(NO_POINT, l.points, |i| {
        DraftPoint::from(sheet_records::point_at(sheet, i))
    });
    let pars = cells_of(NO_PAR, l.pars, |i| sheet_records::par_at(sheet, i));
    let factors = cells_of(NO_FACTOR, l.factors, |i| factor_at(sheet, i));
    let paths = cells_of(NO_PATH, l.paths, |i| sheet_records::path_at(sheet, i));
    let circulations = cells_of(NO_CIRCULATION, l.circulations, |_| {
        sheet_records::circulation_at(sheet)
    });
    Draft {
        head,
        zone_count: l.zones,
        zones,
        unit_count: l.units,
        units,
        point_count: l.points,
        points,
        par_count: l.pars,
        pars,
        factor_count: l.factors,
        factors,
        path_count: l.paths,
        paths,
        circulation_count: l.circulations,
        circulations,
    }
}
