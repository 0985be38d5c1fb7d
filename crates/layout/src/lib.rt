#![tactic(auto)]
// Where the records of a sheet stand. The sheet stays as it is: a layout says how many records there are of each kind.
ghost use Rattle.std.specs.Prelude.{◌≡◌, true, ◌+◌, ◌*◌, ◌≤◌, ◌<◌, ◌^◌, length, drop};
ghost use Rattle.record_table.specs.Table.{kind_of, body_length, body_in};
ghost use Rattle.record_table.specs.inner.Kinds.{code};
ghost use Rattle.record_rows.specs.Rows.{repeats};
ghost use Rattle.record_table.specs.inner.Sizes.{size, most_size};
ghost use Rattle.layout.specs.inner.Places.{counts_in, one, count, counted, first_of, start_of, extent, body_at, content_at, Allowed};
ghost use Rattle.layout.specs.inner.Listed.{named, most_named, run_of, Listed};
ghost use Rattle.name_index.specs.inner.Index.{with_next};

use due_factors::Counts;
use name_index::Run;
use record_table::Kind;

// Of the index of names: its hashes are up to this.
const MASK: usize = 511;

const MOST_NAMED: usize = record_table::MOST_HEADS
    + record_table::MOST_ZONES
    + record_table::MOST_UNITS
    + record_table::MOST_POINTS
    + record_table::MOST_PARS
    + record_table::MOST_PATHS;

// Of the table of the index: a place for each hash, for each name that is allowed, and for one too many.
pub const TABLE_SIZE: usize = MASK + 1 + MOST_NAMED + 1;

#[derive(Clone, Copy, Default)]
pub struct Layout {
    pub heads: usize,
    pub zones: usize,
    pub units: usize,
    pub points: usize,
    pub pars: usize,
    pub factors: usize,
    pub paths: usize,
    pub circulations: usize,
}

impl Layout {
    pub fn count(self, kind: Kind) -> usize
        ensures { result ≡ count self (code kind) }
    {
        match kind {
            Kind::Head => self.heads,
            Kind::Zone => self.zones,
            Kind::Unit => self.units,
            Kind::Point => self.points,
            Kind::Par => self.pars,
            Kind::Factor => self.factors,
            Kind::Path => self.paths,
            Kind::Circulation => self.circulations,
        }
    }

    pub fn counts_in(self) -> Counts
        ensures { result ≡ counts_in self }
    {
        Counts {
            zones: self.zones,
            units: self.units,
            points: self.points,
            pars: self.pars,
        }
    }

    // One record of a kind more.
    #[tactic(auto, unfolding(crate::specs::inner::Places::counted), using(crate::proofs::Places::extent_is))]
    pub fn add(&mut self, kind: Kind)
        requires { extent self.old < 2 ^ 64 }
        ensures { self.new ≡ counted self.old (code kind) }
    {
        match kind {
            Kind::Head => self.heads += 1,
            Kind::Zone => self.zones += 1,
            Kind::Unit => self.units += 1,
            Kind::Point => self.points += 1,
            Kind::Par => self.pars += 1,
            Kind::Factor => self.factors += 1,
            Kind::Path => self.paths += 1,
            Kind::Circulation => self.circulations += 1,
        }
    }

    // Where the records of a kind begin: behind those of the kinds below.
    // `extent` stays a clause: as a ghost field it would be asked of whoever makes a layout.
    #[tactic(auto, unfolding(crate::specs::inner::Places::first_of), using(crate::proofs::Places::extent_is))]
    fn first_of(self, kind: Kind) -> usize
        requires { extent self < 2 ^ 64 }
        ensures { result ≡ first_of self (code kind) }
    {
        let zones = size_of(Kind::Head) * self.heads;
        let units = zones + size_of(Kind::Zone) * self.zones;
        let points = units + size_of(Kind::Unit) * self.units;
        let pars = points + size_of(Kind::Point) * self.points;
        let factors = pars + size_of(Kind::Par) * self.pars;
        let paths = factors + size_of(Kind::Factor) * self.factors;
        let circulations = paths + size_of(Kind::Path) * self.paths;
        match kind {
            Kind::Head => 0,
            Kind::Zone => zones,
            Kind::Unit => units,
            Kind::Point => points,
            Kind::Par => pars,
            Kind::Factor => factors,
            Kind::Path => paths,
            Kind::Circulation => circulations,
        }
    }

    // Where the i-th record of a kind begins, from 0.
    fn start_of(self, kind: Kind, i: usize) -> usize
        requires { (extent self < 2 ^ 64) × (i < count self (code kind)) }
        ensures { (result ≡ start_of self (code kind) i) × (result + size (code kind) ≤ extent self) }
    {
        self.first_of(kind) + size_of(kind) * i
    }

    fn named_of(self) -> usize
        requires { Allowed self }
        ensures { (result ≡ named self) × (result ≤ most_named) }
    {
        self.heads + self.zones + self.units + self.points + self.pars + self.paths
    }
}

// How many records there are of the kind that a byte names, and 0 where it names none.
// By byte and no `Kind`, here and below: what a byte of no kind gives is promised too.
pub fn count_of(l: Layout, kind: u8) -> usize
    ensures { result ≡ count l kind }
{
    match Kind::try_from(kind) {
        Ok(known) => l.count(known),
        Err(_) => 0,
    }
}

// One record more of the kind that a byte names, and none where it names none.
#[tactic(auto, unfolding(crate::specs::inner::Places::counted))]
pub fn counted(l: Layout, kind: u8) -> Layout
    requires { extent l < 2 ^ 64 }
    ensures { result ≡ counted l kind }
{
    let Ok(known) = Kind::try_from(kind) else {
        return l;
    };
    let mut more = l;
    more.add(known);
    more
}

fn size_of(kind: Kind) -> usize
    ensures { (result ≡ size (code kind)) × (result ≤ most_size) }
{
    kind.body_length() + 1
}

// The body of the i-th record of a kind, from 0: the part of the sheet that starts behind the record's kind byte.
pub fn body_at(s: &[u8], l: Layout, kind: Kind, i: usize) -> &[u8]
    requires { (extent l ≤ length s.now) × (i < count l (code kind)) }
    ensures { (result.now ≡ body_at s.now l (code kind) i) × (length result.now ≡ body_length (code kind)) }
{
    let from = l.start_of(kind, i) + 1;
    &s[from..from + kind.body_length()]
}

// Whether the record at `at`, behind the others of its kind, has the name of one of them.
// The table, which holds their names, then holds its name too.
pub fn repeated(s: &[u8], l: Layout, kind: Kind, at: usize, table: &mut [u16]) -> bool
    requires { ((kind_of (code kind)).named ≡ true) × (at ≡ start_of l (code kind) (count l (code kind))) × (at + size (code kind) ≤ length s.now) × Allowed l × Listed s.now l (code kind) table.old }
    ensures { (result ≡ repeats (content_at s.now l) (code kind) (body_in (code kind) (drop (at + 1) s.now))) × Listed s.now (counted l (code kind)) (code kind) table.new × (table.new ≡ with_next s.now (run_of l (code kind)) table.old) }
{
    let count = l.count(kind);
    let stride = size_of(kind);
    let run = Run {
        first: at - stride * count + 1,
        stride,
        count,
        base: l.named_of() - count,
        mask: MASK,
    };
    name_index::seen_before(s, at + 1, run, table)
}
