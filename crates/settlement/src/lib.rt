#![tactic(auto)]
// The settlement of one interval, from a sheet and an entitlement list: refusals 1 to 22 and 28.
ghost use Rattle.std.specs.Prelude.{◌≡◌, ◌≤◌, nat_abs};
ghost use Rattle.rows.specs.Refusals.{number};
ghost use Rattle.sheet.specs.Sheet.{content_of};
ghost use Rattle.settlement.specs.Settled.{inputs, refused_by, after_balance, after_list, after_sheet, interval};
ghost use Rattle.settlement.specs.inner.Parts.{interval_of, Settles};
ghost use Rattle.settlement.specs.Promise.{Promise};

use generation_to_load::Served;
use records::Head;
use rows::Refusal;
use sheet::AcceptedSheet;
use statement::Statement;

// What settling an interval answers: the statement with the sheet's seconds and Monitoring RTO.
// A code and no `Rto`: the C interface has it so in the head and in the hour.
#[derive(Clone, Copy)]
pub struct Interval {
    pub statement: Statement,
    pub seconds: u16,
    pub monitoring_rto: u8,
}

// Field by field: C has the statement flat.
fn interval_of(
    h: &Head,
    f: &market_flow::Flow,
    has_paths: bool,
    settled: i64,
    p: &payment::Payment,
) -> Interval
    ensures { result ≡ interval_of h.now f.now has_paths settled p.now }
{
    let statement = Statement {
        refusal: 0,
        name: h.name,
        has_paths,
        gtl: f.gtl,
        first_remainder: f.first_remainder,
        second_remainder: f.second_remainder,
        parallel: f.parallel,
        shadow: f.shadow,
        common: f.common,
        noncommon: f.noncommon,
        market: f.market,
        settled,
        entitlement: p.entitlement,
        price: p.price,
        amount: p.amount,
        nyiso: p.nyiso,
        pjm: p.pjm,
    };
    Interval {
        statement,
        seconds: h.seconds,
        monitoring_rto: h.monitoring_rto,
    }
}

// The settlement flow, and the payment on it. Row 22 is judged on that flow, before anything is paid.
// e, here and below: an entitlement as `entitlements::find` gives it. A number, since it is the statement's.
fn settle_flow(served: &Served<'_>, e: i64) -> Result<Interval, Refusal>
    requires { nat_abs e ≤ 100000 }
    ensures { Settles result (after_balance (content_of served.now.sheet.bytes.now) e) }
{
    let f = market_flow::flow_of(served);
    let watts = payment::in_watts(e);
    let settled = settlement_flow::settlement_flow(&served.sheet, f.market, watts);
    payment::flow_row(settled)?;
    let h = sheet_records::head_at(&served.sheet);
    let p = payment::pay(&h, settled, watts);
    Ok(interval_of(&h, &f, 1 <= served.sheet.layout.paths, settled, &p))
}

// Loads, generation and their balance, then the flow.
fn settle_balance(sheet: &AcceptedSheet<'_>, e: i64) -> Result<Interval, Refusal>
    requires { nat_abs e ≤ 100000 }
    ensures { Settles result (after_list (content_of sheet.now.bytes.now) e) }
{
    let served = balance::served(sheet)?;
    settle_flow(&served, e)
}

// An accepted sheet: the entitlement list, then the balance. The interval, or the first refusal behind the records.
pub fn interval_or_refusal(sheet: &AcceptedSheet<'_>, list: &[u8]) -> Result<Interval, Refusal>
    ensures { Settles result (after_sheet (content_of sheet.now.bytes.now) (inputs sheet.now.bytes.now list.now)) }
{
    let h = sheet_records::head_at(sheet);
    let e = entitlements::find(list, &h.name)?;
    settle_balance(sheet, e)
}

// A refused interval: the number, and zeros everywhere else.
#[tactic(auto, unfolding(statement::specs::Statement::refused_as))]
fn refused(refusal: Refusal) -> Interval
    ensures { result ≡ refused_by (number refusal) }
{
    Interval {
        statement: statement::refused(refusal.number()),
        seconds: 0,
        monitoring_rto: 0,
    }
}

// The interval of an accepted sheet and a list, a refused one too.
pub fn settle_sheet(sheet: &AcceptedSheet<'_>, list: &[u8]) -> Interval
    ensures { result ≡ after_sheet (content_of sheet.now.bytes.now) (inputs sheet.now.bytes.now list.now) }
{
    match interval_or_refusal(sheet, list) {
        Ok(i) => i,
        Err(refusal) => refused(refusal),
    }
}

// The interval of any two byte strings: all inputs of a settlement come here.
// Sheet and list stay two parameters, here and in what calls this: document 01's forms have them so.
pub fn settle_interval(sheet: &[u8], list: &[u8]) -> Interval
    ensures value { result ≡ interval (inputs sheet.now list.now) }
    ensures promise { Promise sheet.now list.now result.statement }
{
    match sheet::read(sheet) {
        Err(r) => refused(r.refusal),
        Ok(accepted) => settle_sheet(&accepted, list),
    }
}

// The statement of any two byte strings.
pub fn settle(sheet: &[u8], list: &[u8]) -> Statement
    ensures { Promise sheet.now list.now result }
{
    settle_interval(sheet, list).statement
}
