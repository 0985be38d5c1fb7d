#![tactic(auto)]
// The factors that are due (document 01, 'The interval sheet'):
// how many, which is behind k others, and where one stands among them.
ghost use Rattle.std.specs.Prelude.{◌≡◌, ℕ, ◌++◌, ◌+◌, ◌≤◌, ◌<◌, length, get_or};
ghost use Rattle.records.specs.Codes.{subject_code};
ghost use Rattle.due_factors.specs.Due.{key, each, run, due_list, no_due, how_many, Asked};
ghost use Rattle.due_factors.specs.inner.Places.{Few, every, pars_on, offset, standing, place_in, more_of_run};

use records::Subject;

// How many zones, units, points and PARs a sheet has.
// `Few` stays a clause: as a ghost field it would be asked of `Layout::counts_in`, which answers for any layout.
#[derive(Clone, Copy)]
pub struct Counts {
    pub zones: usize,
    pub units: usize,
    pub points: usize,
    pub pars: usize,
}

// target: 0 the flowgate, k the k-th PAR. index: from 1.
// subject stays a code, no `Subject`: the definition's list holds codes. target stays a number, as in the sheet.
#[derive(Clone, Copy)]
pub struct Due {
    pub target: usize,
    pub subject: u8,
    pub index: usize,
}

// A factor's target, and how many of that target's stand before it.
#[derive(Clone, Copy)]
struct Standing {
    target: usize,
    behind: usize,
}

// A factor's subject, how many of its target's of that subject stand before it, and how many there are.
#[derive(Clone, Copy)]
struct Run {
    subject: Subject,
    behind: usize,
    many: usize,
}

// How many factors each target has but for those of PARs.
fn every(n: Counts) -> usize
    requires { Few n }
    ensures { (result ≡ every n) × (result ≤ 320) }
{
    n.units + n.zones + n.points
}

pub fn due_count(n: Counts) -> usize
    requires { Few n }
    ensures { result ≡ length (due_list n) }
{
    let each = every(n);
    each + n.pars + n.pars * each
}

// How many PARs have a factor on a target.
fn pars_on(target: usize, pars: usize) -> usize
    ensures { (result ≡ pars_on pars target) × (result ≤ pars) }
{
    if target == 0 { pars } else { 0 }
}

// Where the factor stands that is due behind k others.
fn standing_of(n: Counts, k: usize) -> Standing
    requires { Few n × (k < length (due_list n)) }
    ensures { result ≡ standing n k }
{
    let each = every(n);
    if k < each + n.pars {
        return Standing {
            target: 0,
            behind: k,
        };
    }
    let m = k - (each + n.pars);
    Standing {
        target: m / each + 1,
        behind: m % each,
    }
}

// The i-th of a target's factors, from 0: units, zones, points, and as many PARs as have a factor on it.
fn run_of(n: Counts, pars: usize, i: usize) -> Run
    requires { Few n × (i < every n + pars) }
    ensures { ((target : ℕ) → get_or (each n target ++ run target 4 pars) i no_due ≡ key target (subject_code result.subject) result.behind) × (result.many ≡ how_many n.zones n.units n.points pars (subject_code result.subject)) × (result.behind < result.many) × (result.behind ≤ i) }
{
    if i < n.units {
        return Run {
            subject: Subject::Unit,
            behind: i,
            many: n.units,
        };
    }
    let j = i - n.units;
    if j < n.zones {
        return Run {
            subject: Subject::Zone,
            behind: j,
            many: n.zones,
        };
    }
    let k = j - n.zones;
    if k < n.points {
        return Run {
            subject: Subject::Point,
            behind: k,
            many: n.points,
        };
    }
    Run {
        subject: Subject::Par,
        behind: k - n.points,
        many: pars,
    }
}

// The factor that is due behind k others.
pub fn due_at(n: Counts, k: usize) -> Due
    requires { Few n × (k < length (due_list n)) }
    ensures { result ≡ get_or (due_list n) k no_due }
{
    let at = standing_of(n, k);
    let run = run_of(n, pars_on(at.target, n.pars), at.behind);
    Due {
        target: at.target,
        subject: run.subject.code(),
        index: run.behind + 1,
    }
}

// How many of its target and subject are due behind that one.
pub fn more_of_run(n: Counts, k: usize) -> usize
    requires { Few n × (k < length (due_list n)) }
    ensures { result ≡ more_of_run n k }
{
    let at = standing_of(n, k);
    let run = run_of(n, pars_on(at.target, n.pars), at.behind);
    run.many - 1 - run.behind
}

// Where a subject's factors begin among a target's.
#[tactic(auto, unfolding(crate::specs::inner::Places::offset))]
fn offset_of(n: Counts, subject: Subject) -> usize
    requires { Few n }
    ensures { result ≡ offset n (subject_code subject) }
{
    match subject {
        Subject::Unit => 0,
        Subject::Zone => n.units,
        Subject::Point => n.units + n.zones,
        Subject::Par => every(n),
    }
}

// Where a factor stands among those that are due, from 0; its index, too, from 0.
pub fn place_of(n: Counts, target: usize, subject: Subject, i: usize) -> usize
    requires { Few n × Asked n.zones n.units n.points n.pars target (subject_code subject) i }
    ensures { result ≡ place_in (due_list n) (key target (subject_code subject) i) }
{
    let offset = offset_of(n, subject);
    if target == 0 {
        return offset + i;
    }
    let each = every(n);
    each + n.pars + (target - 1) * each + (offset + i)
}
