// The kinds of records.
ghost use Rattle.std.specs.Prelude.{◌≡◌};
ghost use Rattle.record_table.specs.Table.{kind_of, body_length};
ghost use Rattle.record_table.specs.inner.Kinds.{code, Decodes};

use super::{
    CIRCULATION_BODY, FACTOR_BODY, HEAD_BODY, MOST_CIRCULATIONS, MOST_HEADS, MOST_PARS, MOST_PATHS,
    MOST_POINTS, MOST_UNITS, MOST_ZONES, PAR_BODY, PATH_BODY, POINT_BODY, UNIT_BODY, ZONE_BODY,
};
use rows::Refusal;

#[derive(Clone, Copy, Debug, PartialEq, Eq)]
pub enum Kind {
    Head = 1,
    Zone,
    Unit,
    Point,
    Par,
    Factor,
    Path,
    Circulation,
}

impl Kind {
    pub fn code(self) -> u8
        ensures { result ≡ code self }
    {
        self as u8
    }

    pub fn body_length(self) -> usize
        ensures { result ≡ body_length (code self) }
    {
        match self {
            Kind::Head => HEAD_BODY,
            Kind::Zone => ZONE_BODY,
            Kind::Unit => UNIT_BODY,
            Kind::Point => POINT_BODY,
            Kind::Par => PAR_BODY,
            Kind::Factor => FACTOR_BODY,
            Kind::Path => PATH_BODY,
            Kind::Circulation => CIRCULATION_BODY,
        }
    }

    // 0 of factors: how many there are is for the list of those due to say.
    pub fn most(self) -> usize
        ensures { result ≡ (kind_of (code self)).most }
    {
        match self {
            Kind::Head => MOST_HEADS,
            Kind::Zone => MOST_ZONES,
            Kind::Unit => MOST_UNITS,
            Kind::Point => MOST_POINTS,
            Kind::Par => MOST_PARS,
            Kind::Factor => 0,
            Kind::Path => MOST_PATHS,
            Kind::Circulation => MOST_CIRCULATIONS,
        }
    }
}

impl TryFrom<u8> for Kind {
    type Error = Refusal;

    ghost try_from_gives = { Decodes };

    // Row 2.
    fn try_from(code: u8) -> Result<Self, Refusal> {
        match code {
            1 => Ok(Kind::Head),
            2 => Ok(Kind::Zone),
            3 => Ok(Kind::Unit),
            4 => Ok(Kind::Point),
            5 => Ok(Kind::Par),
            6 => Ok(Kind::Factor),
            7 => Ok(Kind::Path),
            8 => Ok(Kind::Circulation),
            _ => Err(Refusal::UnknownKind),
        }
    }
}
