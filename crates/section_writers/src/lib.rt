#![tactic(auto)]
// Writers of records one behind the other, from the front of the buffer that is lent: of a draft's in three parts.
// Each returns how many bytes these are, a count as a record's; read again, each body is its record.
ghost use Rattle.std.specs.Prelude.{◌≡◌, ◌∷◌, ◌++◌, map, ◌+◌, ◌*◌, ◌≤◌, length};
ghost use Rattle.writers.specs.inner.Wrote.{Wrote};
ghost use Rattle.record_table.specs.inner.Sizes.{size};
ghost use Rattle.records.specs.Bodies.{head_of, zone_of, unit_of, point_of, par_of, factor_of, path_of, circulation_of};
ghost use Rattle.drafts.specs.Draft.{point_given};
ghost use Rattle.sheet_bytes.specs.SheetBytes.{head_body, zone_body, unit_body, point_body, par_body, factor_body, path_body, circulation_body, all};
ghost use Rattle.sheet_bytes.specs.inner.Marked.{marked_point};
ghost use Rattle.sheet_bytes.specs.inner.Returns.{Returns, Each};

use drafts::DraftPoint;
use record_writers::Record;
use records::{Circulation, Factor, Head, Par, Path, Unit, Zone};

pub fn put_all<R: Record + Copy>(records: &[R], out: &mut [u8]) -> usize
    requires { size R.kind * length records.now ≤ length out.old }
    ensures wrote { Wrote (all R.kind R.body records.now) out.old out.new result }
    ensures value { result ≡ size R.kind * length records.now }
    ensures each { Each R.returns records.now }
{
    let mut at = 0;
    for record in records {
        at += record.put(&mut out[at..]);
    }
    at
}

// The head, zones and units.
pub fn put_grid(head: Head, zones: &[Zone], units: &[Unit], out: &mut [u8]) -> usize
    requires { size 1 + size 2 * length zones.now + size 3 * length units.now ≤ length out.old }
    ensures wrote { Wrote ((1 ∷ head_body head) ++ all 2 zone_body zones.now ++ all 3 unit_body units.now) out.old out.new result }
    ensures value { result ≡ size 1 + size 2 * length zones.now + size 3 * length units.now }
    ensures returns { Returns 1 head_body head_of head × Each (Returns 2 zone_body zone_of) zones.now × Each (Returns 3 unit_body unit_of) units.now }
{
    let mut n = head.put(out);
    n += put_all(zones, &mut out[n..]);
    n += put_all(units, &mut out[n..]);
    n
}

// Points, PARs and factors.
pub fn put_flows(points: &[DraftPoint], pars: &[Par], factors: &[Factor], out: &mut [u8]) -> usize
    requires { size 4 * length points.now + size 5 * length pars.now + size 6 * length factors.now ≤ length out.old }
    ensures wrote { Wrote (all 4 point_body (map marked_point (map point_given points.now)) ++ all 5 par_body pars.now ++ all 6 factor_body factors.now) out.old out.new result }
    ensures value { result ≡ size 4 * length points.now + size 5 * length pars.now + size 6 * length factors.now }
    ensures each { Each (Returns 4 point_body point_of) (map marked_point (map point_given points.now)) × Each (Returns 5 par_body par_of) pars.now × Each (Returns 6 factor_body factor_of) factors.now }
{
    let mut n = put_all(points, out);
    n += put_all(pars, &mut out[n..]);
    n += put_all(factors, &mut out[n..]);
    n
}

// Paths and circulations.
pub fn put_lake(paths: &[Path], circulations: &[Circulation], out: &mut [u8]) -> usize
    requires { size 7 * length paths.now + size 8 * length circulations.now ≤ length out.old }
    ensures wrote { Wrote (all 7 path_body paths.now ++ all 8 circulation_body circulations.now) out.old out.new result }
    ensures value { result ≡ size 7 * length paths.now + size 8 * length circulations.now }
    ensures each { Each (Returns 7 path_body path_of) paths.now × Each (Returns 8 circulation_body circulation_of) circulations.now }
{
    let mut n = put_all(paths, out);
    n += put_all(circulations, &mut out[n..]);
    n
}
