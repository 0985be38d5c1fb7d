#![tactic(auto)]
// The interval sheet: read once, and refused by rows 1 to 13 and 28 or accepted with its layout.
mod answer;

ghost use Rattle.std.specs.Prelude.{◌≡◌, List, ℕ, MatchResult, ◌+◌, ◌*◌, ◌≤◌, ◌<◌, ◌^◌, length, true};
ghost use Rattle.fields.specs.Fields.{byte_at};
ghost use Rattle.record_table.specs.Table.{kind_of, body_length};
ghost use Rattle.record_table.specs.inner.Kinds.{code, Named};
ghost use Rattle.records.specs.Content.{Content};
ghost use Rattle.record_rows.specs.Rows.{body_row, last_row};
ghost use Rattle.layout.specs.Layout.{layout_of};
ghost use Rattle.record_table.specs.inner.Sizes.{size};
ghost use Rattle.layout.specs.inner.Places.{Allowed, content_at};
ghost use Rattle.layout.specs.inner.Listed.{Listed};
ghost use Rattle.sheet.specs.Sheet.{holds, unless, outcome, read_sheet};
ghost use Rattle.sheet.specs.Sheet as reader;
ghost use Rattle.sheet.specs.Passed.{Passed};
ghost use Rattle.rows.specs.Refusals.{number, row_of};
ghost use Rattle.sheet.specs.inner.Answered.{outcome_of};
ghost use Rattle.sheet.specs.inner.RowHere.{RowHere};
ghost use Rattle.sheet.specs.inner.GoodFactors.{key_of, Good};

pub use answer::AcceptedSheet;
use layout::Layout;
use names::name_ok_at;
use record_table::{FACTOR_BODY, Kind};
use records::bodies;
use rows::Refusal;

// How many bytes a factor's record has: one of kind, then the body.
const FACTOR_SIZE: usize = FACTOR_BODY + 1;

// Where a sheet is refused: by which row, and where the offending record begins.
#[derive(Clone, Copy)]
pub struct Refused {
    pub refusal: Refusal,
    pub place: usize,
}

// Rows 6 to 11 of the body b of a record with a name.
#[tactic(auto, unfolding(record_rows::specs::Rows::body_row, records::specs::Bodies::head_of, records::specs::Bodies::zone_of, records::specs::Bodies::unit_of, records::specs::Bodies::point_of, records::specs::Bodies::par_of, records::specs::Bodies::path_of))]
fn named_row(zones: usize, kind: Kind, repeated: bool, b: &[u8]) -> Result<(), Refusal>
    requires { ((kind_of (code kind)).named ≡ true) × (body_length (code kind) ≤ length b.now) }
    ensures { (c : Content) → length c.zones ≡ zones → row_of result ≡ body_row c (code kind) repeated b.now }
{
    let well = name_ok_at(b, 0);
    match kind {
        Kind::Head => record_rows::head_row(well, bodies::head_of(b)),
        Kind::Zone => record_rows::zone_row(well, repeated, bodies::zone_of(b)),
        Kind::Unit => record_rows::unit_row(well, zones, repeated, bodies::unit_of(b)),
        Kind::Point => record_rows::point_row(well, zones, repeated, bodies::point_of(b)),
        Kind::Par => record_rows::par_row(well, repeated, bodies::par_of(b)),
        _ => record_rows::path_row(well, repeated, bodies::path_of(b)),
    }
}

// The kind of the record at a place, or the first of rows 2 to 11 that fits it.
// The table holds the names of the last kind, then of this record's.
// Here and below, `last` is no `Option<Kind>`: the definitions count kinds from 1, with 0 before the first.
// The reader's state stays parameters: what is known of it stands in two contracts, here and at `past_factors`.
fn record_row(s: &[u8], l: Layout, last: u8, at: usize, table: &mut [u16]) -> Result<Kind, Refusal>
    requires { Passed s.now at last (content_at s.now l) × (at < length s.now) × Listed s.now l last table.old }
    ensures { RowHere s.now l last at table.new (row_of result) × Named (byte_at s.now at) result }
{
    let from = at + 1;
    let earlier = layout::count_of(l, s[at]);
    let kind = record_rows::front_row(last, s[at], earlier, s.len() - from)?;
    let b = &s[from..from + kind.body_length()];
    match kind {
        Kind::Factor => record_rows::factor_row(l.counts_in(), l.factors, bodies::factor_of(b))?,
        Kind::Circulation => record_rows::circulation_row(bodies::circulation_of(b))?,
        _ => {
            let repeated = layout::repeated(s, l, kind, at, table);
            named_row(l.zones, kind, repeated, b)?;
        }
    }
    Ok(kind)
}

// Whether a factor with this target, subject and index stands at a place and passes.
fn good_factor(s: &[u8], at: usize, key: u32) -> bool
    requires { at + size 6 ≤ length s.now }
    ensures { result ≡ true → Good s.now at key }
{
    let due = (s[at] == Kind::Factor.code()) & (fields::be32_at(s, at + 1) == key);
    due & !field_rows::factor_beyond(fields::sbe16_at(s, at + 5))
}

// How many good factors, up to `most`, follow one another from a place on, with rising index.
fn good_factors(s: &[u8], at: usize, key: u32, most: usize) -> usize
    requires { (at ≤ length s.now) × (key + most < 2 ^ 32) }
    ensures { (result ≤ most) × ((k : ℕ) → k < result → Good s.now (at + size 6 * k) (key + k)) }
{
    let whole = ((s.len() - at) / FACTOR_SIZE).min(most);
    for n in 0..whole {
        if !good_factor(s, at + FACTOR_SIZE * n, key + n as u32) {
            return n;
        }
    }
    whole
}

fn key_of(d: due_factors::Due) -> u32
    requires { (d.target ≤ 8) × (d.subject ≤ 4) × (d.index ≤ 256) }
    ensures { result ≡ key_of d }
{
    let target = d.target as u32;
    let subject = d.subject as u32;
    target * 0x100_0000 + subject * 0x1_0000 + d.index as u32
}

// Past the factors behind a factor that pass too, up to the last of their target and subject.
// Each is judged by its bytes in one go; the first that is not good is left to `record_row`.
fn past_factors(s: &[u8], l: &mut Layout, last: u8, at: usize) -> usize
    requires { Passed s.now at last (content_at s.now l.old) }
    ensures { (at ≤ result) × Passed s.now result last (content_at s.now l.new) × ((table : List ℕ) → Listed s.now l.old last table → Listed s.now l.new last table) }
{
    if last != Kind::Factor.code() {
        return at;
    }
    let counts = l.counts_in();
    if due_factors::due_count(counts) <= l.factors {
        return at;
    }
    let most = due_factors::more_of_run(counts, l.factors);
    let key = key_of(due_factors::due_at(counts, l.factors));
    let n = good_factors(s, at, key, most);
    l.factors += n;
    at + FACTOR_SIZE * n
}

// The answer at the sheet's end.
fn ended(l: Layout, at: usize) -> Result<Layout, Refused>
    requires { Allowed l }
    ensures { (c : Content) → layout_of c ≡ l → outcome_of result ≡ outcome (unless (last_row c) at (holds c)) }
{
    match record_rows::end_row(l.counts_in(), l.factors, l.paths, l.circulations) {
        Err(refusal) => Err(Refused { refusal, place: at }),
        Ok(()) => Ok(l),
    }
}

// The layout of a sheet that is accepted.
fn laid_out(s: &[u8]) -> Result<Layout, Refused>
    ensures { outcome_of result ≡ read_sheet s.now }
{
    if s.is_empty() || s[0] != Kind::Head.code() {
        return Err(Refused {
            refusal: Refusal::NoHead,
            place: 0,
        });
    }
    let mut l = Layout::default();
    let mut table = [0u16; layout::TABLE_SIZE];
    let mut last = 0;
    let mut at = 0;
    // No `for`: records have lengths of their own.
    while at < s.len() {
        match record_row(s, l, last, at, &mut table) {
            Err(refusal) => return Err(Refused { refusal, place: at }),
            Ok(kind) => {
                l.add(kind);
                last = kind.code();
                at = past_factors(s, &mut l, last, at + 1 + kind.body_length());
            }
        }
    }
    ended(l, at)
}

pub fn read(s: &[u8]) -> Result<AcceptedSheet<'_>, Refused>
    ensures { MatchResult result (λ a. (a.bytes.now ≡ s.now) × (read_sheet s.now ≡ reader.Accepted a.layout))
        (λ r. read_sheet s.now ≡ reader.Refused (number r.refusal) r.place) }
{
    let layout = laid_out(s)?;
    Ok(AcceptedSheet { bytes: s, layout })
}
