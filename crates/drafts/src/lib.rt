#![tactic(auto)]
// A draft of a sheet: what a planner alters and the writer takes (document 02, requests 3 and 6).
ghost use Rattle.std.specs.Prelude.{◌≡◌};
ghost use Rattle.drafts.specs.Draft.{drafted};

use records::{Circulation, Factor, Head, Par, Path, Place, Point, Unit, Zone};

// One place more of each kind than a sheet may have, for the record that row 5 or 10 refuses.
pub const ZONES: usize = record_table::MOST_ZONES + 1;

pub const UNITS: usize = record_table::MOST_UNITS + 1;

pub const POINTS: usize = record_table::MOST_POINTS + 1;

pub const PARS: usize = record_table::MOST_PARS + 1;

// At most 2,888 factors are due.
pub const FACTORS: usize = 2_888 + 1;

pub const PATHS: usize = record_table::MOST_PATHS + 1;

pub const CIRCULATIONS: usize = record_table::MOST_CIRCULATIONS + 1;

// A point whose place is numbers, for the C interface: a proxy where `line` is 0, else a scheduled line into `zone`.
#[repr(C)]
#[derive(Clone, Copy)]
pub struct DraftPoint {
    pub name: [u8; 16],
    pub sort: u8,
    pub line: u8,
    pub zone: u8,
    pub import: u32,
    pub export: u32,
    pub wheel_in: u32,
    pub wheel_out: u32,
}

// The C interface, with no heap: a count beside each array of fixed length, and no `Vec`.
// Of each array the first records are given, as many as its count says and at most all.
#[repr(C)]
#[derive(Clone, Copy)]
pub struct Draft {
    pub head: Head,
    pub zone_count: usize,
    pub zones: [Zone; ZONES],
    pub unit_count: usize,
    pub units: [Unit; UNITS],
    pub point_count: usize,
    pub points: [DraftPoint; POINTS],
    pub par_count: usize,
    pub pars: [Par; PARS],
    pub factor_count: usize,
    pub factors: [Factor; FACTORS],
    pub path_count: usize,
    pub paths: [Path; PATHS],
    pub circulation_count: usize,
    pub circulations: [Circulation; CIRCULATIONS],
}

impl From<Point> for DraftPoint {
    ghost from_gives = { λ p draft. draft ≡ drafted p };

    fn from(p: Point) -> DraftPoint {
        let name = p.name;
        let (line, zone) = match p.place {
            Place::Proxy => (0, 0),
            Place::Line(n) => (1, n),
        };
        DraftPoint {
            name,
            sort: p.sort,
            line,
            zone,
            import: p.import,
            export: p.export,
            wheel_in: p.wheel_in,
            wheel_out: p.wheel_out,
        }
    }
}
