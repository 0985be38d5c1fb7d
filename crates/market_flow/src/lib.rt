#![tactic(auto)]
// Steps 4 to 6, from the flow for a target to the market flow (5.5 to 5.7). Flows are watts.
ghost use Rattle.std.specs.Prelude.{◌≡◌, ◌<◌, ◌≤◌, nat_abs, ◌+ℤ◌, ◌-ℤ◌};
ghost use Rattle.records.specs.Codes.{class_code};
ghost use Rattle.sheet.specs.Sheet.{content_of};
ghost use Rattle.figures.specs.Flow.{carried_term, carried_sum, redirect, non_common_redirect};
ghost use Rattle.figures.specs.inner.Most.{most_generation_to_load, most_schedule, most_redirect};
ghost use Rattle.market_flow.specs.inner.Flow.{par_share, flow_of};

use generation_to_load::Served;
use records::{Class, Rto, Subject};
use weighted_sums::FLOWGATE;

// gtl, parallel and shadow are the flowgate's; common and noncommon are the redirects.
#[derive(Clone, Copy)]
pub struct Flow {
    pub gtl: i64,
    pub first_remainder: i64,
    pub second_remainder: i64,
    pub parallel: i64,
    pub shadow: i64,
    pub common: i64,
    pub noncommon: i64,
    pub market: i64,
}

// What of the flow on a PAR goes over the flowgate.
fn over_par(served: &Served<'_>, i: usize) -> i64
    requires { i < served.now.sheet.layout.pars }
    ensures { result ≡ par_share (content_of served.now.sheet.bytes.now) i }
{
    let target = i + 1;
    let gtl = generation_to_load::flow(served, target);
    let parallel = weighted_sums::points(&served.sheet, Class::NonCommon, target);
    let factor = sheet_records::factor_at(&served.sheet, FLOWGATE, Subject::Par, i);
    factor * (gtl.flow + parallel)
}

#[tactic(auto, unfolding(figures::specs::Flow::carried_term))]
fn carried_term(served: &Served<'_>, class: Class, i: usize) -> i64
    requires { i < served.now.sheet.layout.pars }
    ensures { result ≡ carried_term (content_of served.now.sheet.bytes.now) (class_code class) i }
{
    let p = sheet_records::par_at(&served.sheet, i);
    if p.class == class.code() {
        over_par(served, i)
    } else {
        0
    }
}

fn carried_sum(served: &Served<'_>, class: Class) -> i64
    ensures { result ≡ carried_sum (content_of served.now.sheet.bytes.now) (class_code class) }
{
    sums::sum_to(served.sheet.layout.pars, |i| carried_term(served, class, i))
}

// Step 5: carried − control.
fn redirect(served: &Served<'_>, class: Class) -> i64
    ensures { result ≡ redirect (content_of served.now.sheet.bytes.now) (class_code class) }
{
    let sum = carried_sum(served, class);
    let carried = quotient::rounded_quotient(sum, 10000);
    let control = weighted_sums::pars(&served.sheet, class);
    carried.quotient - control
}

// NYISO's alone: 0 where NYISO is the Monitoring RTO.
#[tactic(auto, unfolding(figures::specs::Flow::non_common_redirect, figures::specs::Flow::nyiso_monitors))]
fn noncommon_redirect(served: &Served<'_>) -> i64
    ensures { result ≡ non_common_redirect (content_of served.now.sheet.bytes.now) }
{
    let h = sheet_records::head_at(&served.sheet);
    if h.monitoring_rto == Rto::Nyiso.code() {
        0
    } else {
        redirect(served, Class::NonCommon)
    }
}

// Step 6.
fn market_flow(gtl: i64, parallel: i64, shadow: i64, common: i64, noncommon: i64) -> i64
    requires { (nat_abs gtl ≤ most_generation_to_load) × (nat_abs parallel ≤ most_schedule) × (nat_abs shadow ≤ most_schedule) × (nat_abs common ≤ most_redirect) × (nat_abs noncommon ≤ most_redirect) }
    ensures { result ≡ gtl +ℤ parallel +ℤ shadow -ℤ common -ℤ noncommon }
{
    gtl + parallel + shadow - common - noncommon
}

pub fn flow_of(served: &Served<'_>) -> Flow
    ensures { result ≡ flow_of (content_of served.now.sheet.bytes.now) }
{
    let g = generation_to_load::flow(served, FLOWGATE);
    let parallel = weighted_sums::points(&served.sheet, Class::NonCommon, FLOWGATE);
    let shadow = weighted_sums::points(&served.sheet, Class::Common, FLOWGATE);
    let common = redirect(served, Class::Common);
    let noncommon = noncommon_redirect(served);
    let market = market_flow(g.flow, parallel, shadow, common, noncommon);
    Flow {
        gtl: g.flow,
        first_remainder: g.first_remainder,
        second_remainder: g.second_remainder,
        parallel,
        shadow,
        common,
        noncommon,
        market,
    }
}
