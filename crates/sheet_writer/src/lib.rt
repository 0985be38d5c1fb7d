#![tactic(auto)]
// The writer of sheets (document 02, requests 3 and 6): a draft as a sheet, or rows 5 to 13, 28, or 27.
ghost use Rattle.std.specs.Prelude.{◌≡◌, ◌≤◌, length, take};
ghost use Rattle.rows.specs.Refusals.{row_of};
ghost use Rattle.layout.specs.Layout.{layout_of};
ghost use Rattle.layout.specs.inner.Places.{extent};
ghost use Rattle.sheet.specs.Sheet.{reading, number_in};
ghost use Rattle.writers.specs.inner.Wrote.{Wrote};
ghost use Rattle.sheet_bytes.specs.SheetBytes.{sheet_bytes};
ghost use Rattle.sheet_bytes.specs.inner.Marked.{marked};
ghost use Rattle.sheet_bytes.specs.inner.Returns.{Returned};
ghost use Rattle.drafts.specs.Draft.{given};
ghost use Rattle.sheet_writer.specs.Promise.{Promise};

use drafts::Draft;
use rows::Refusal;
use section_writers::{put_flows, put_grid, put_lake};

// How many bytes all records of a draft have at most, surplus ones included.
const ROOM: usize = record_table::HEAD_BODY
    + 1
    + (record_table::ZONE_BODY + 1) * drafts::ZONES
    + (record_table::UNIT_BODY + 1) * drafts::UNITS
    + (record_table::POINT_BODY + 1) * drafts::POINTS
    + (record_table::PAR_BODY + 1) * drafts::PARS
    + (record_table::FACTOR_BODY + 1) * drafts::FACTORS
    + (record_table::PATH_BODY + 1) * drafts::PATHS
    + (record_table::CIRCULATION_BODY + 1) * drafts::CIRCULATIONS;

// For the C interface: 0 and the sheet's length, or a refusal's number and 0.
#[repr(C)]
#[derive(Clone, Copy)]
pub struct Written {
    pub refusal: u8,
    pub length: usize,
}

// The first n of an array's records, and at most all: in the C interface a count stands beside each array.
fn first<R, const N: usize>(records: &[R; N], n: usize) -> &[R]
    ensures value { result.now ≡ take n records.now }
    ensures within { length result.now ≤ N }
{
    &records[..n.min(N)]
}

// All records that are given.
fn put_sheet(d: &Draft, out: &mut [u8]) -> usize
    requires { extent (layout_of (given d.now)) ≤ length out.old }
    ensures wrote { Wrote (sheet_bytes (marked (given d.now))) out.old out.new result }
    ensures value { result ≡ extent (layout_of (given d.now)) }
    ensures returned { Returned (marked (given d.now)) }
    ensures few { length (given d.now).zones ≤ 33 }
{
    let zones = first(&d.zones, d.zone_count);
    let units = first(&d.units, d.unit_count);
    let points = first(&d.points, d.point_count);
    let pars = first(&d.pars, d.par_count);
    let factors = first(&d.factors, d.factor_count);
    let paths = first(&d.paths, d.path_count);
    let circulations = first(&d.circulations, d.circulation_count);
    let mut n = put_grid(d.head, zones, units, out);
    n += put_flows(points, pars, factors, &mut out[n..]);
    n += put_lake(paths, circulations, &mut out[n..]);
    n
}

// Whether the reader accepts a sheet.
fn checked(s: &[u8]) -> Result<(), Refusal>
    ensures { row_of result ≡ number_in (reading s.now) }
{
    match sheet::read(s) {
        Err(refused) => Err(refused.refusal),
        Ok(_) => Ok(()),
    }
}

// The records are written to an array first and read there: nothing is stored in the output buffer before they have
// passed.
pub fn write_draft(d: Draft, out: &mut [u8]) -> Written
    ensures { Promise (given d) out.old out.new result }
{
    let mut bytes = [0u8; ROOM];
    let n = put_sheet(&d, &mut bytes);
    if let Err(refusal) = checked(&bytes[..n]) {
        return Written {
            refusal: refusal.number(),
            length: 0,
        };
    }
    if out.len() < n {
        return Written {
            refusal: Refusal::BufferTooShort.number(),
            length: 0,
        };
    }
    Written {
        refusal: 0,
        length: put_sheet(&d, out),
    }
}
