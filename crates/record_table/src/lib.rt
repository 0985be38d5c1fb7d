#![tactic(auto)]
// The table of records of an interval sheet (document 01): kinds, body lengths, how many.
mod kind;

ghost use Rattle.std.specs.Prelude.{◌≡◌};
ghost use Rattle.record_table.specs.Table.{kind_of, body_length};

pub use kind::Kind;

// How many bytes a body of a kind has.
pub const HEAD_BODY: usize = 27;

pub const ZONE_BODY: usize = 24;

pub const UNIT_BODY: usize = 21;

pub const POINT_BODY: usize = 34;

pub const PAR_BODY: usize = 25;

pub const FACTOR_BODY: usize = 6;

pub const PATH_BODY: usize = 22;

pub const CIRCULATION_BODY: usize = 4;

// How many records of a kind there may be.
pub const MOST_HEADS: usize = 1;

pub const MOST_ZONES: usize = 32;

pub const MOST_UNITS: usize = 256;

pub const MOST_POINTS: usize = 32;

pub const MOST_PARS: usize = 8;

pub const MOST_PATHS: usize = 4;

pub const MOST_CIRCULATIONS: usize = 1;

// Of the kind that a sheet's byte names; 0 where it names none. By byte and no `Kind`, here and below: what a byte
// of no kind gives is promised too.
pub fn body_length(kind: u8) -> usize
    ensures { result ≡ body_length kind }
{
    match Kind::try_from(kind) {
        Ok(known) => known.body_length(),
        Err(_) => 0,
    }
}

// How many records of that kind there may be; 0 where the byte names none.
pub fn most_of(kind: u8) -> usize
    ensures { result ≡ (kind_of kind).most }
{
    let Ok(known) = Kind::try_from(kind) else {
        return 0;
    };
    known.most()
}
