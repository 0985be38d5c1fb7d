#![tactic(auto)]
// The settlement for C and Rust: what `exports_c` hands to C. Each function only calls the proved one and hands its
// answer on.
ghost use Rattle.std.specs.Prelude.{◌≡◌};
ghost use Rattle.sheet.specs.Sheet.{read_sheet};
ghost use Rattle.entitlements.specs.Entitlements.{entitlement};
ghost use Rattle.settlement.specs.Settled.{inputs, interval};
ghost use Rattle.settlement.specs.Promise.{Promise};
ghost use Rattle.report.specs.Report.{reported, left};
ghost use Rattle.hours.specs.Hour.{opened, added};
ghost use Rattle.grown_hours.specs.Promise.{Promise as HourPromise};
ghost use Rattle.drafts.specs.Draft.{given};
ghost use Rattle.draft_reader.specs.DraftReader.{drafted_from};
ghost use Rattle.sheet_writer.specs.Promise.{Promise as SheetPromise};
ghost use Rattle.explanation.specs.Explanation.{explained};
ghost use Rattle.explanation.specs.Found.{reason_of};
ghost use Rattle.exports.specs.Answers.{read_answer, entitlement_answer, reason_code, explanation_answer};

use draft_reader::Drafted;
use drafts::Draft;
use explanation::Side;
use hours::{Changed, Hour, Totals};
use listing::Printed;
use sheet_writer::Written;
use statement::Statement;

// What the reader answers: 0 and the counts of an accepted sheet's records, or a refusal's number and the offending
// record's place. For C, so no `Result`.
#[repr(C)]
#[derive(Clone, Copy)]
pub struct ReadAnswer {
    pub refusal: u8,
    pub place: usize,
    pub zones: usize,
    pub units: usize,
    pub points: usize,
    pub pars: usize,
    pub factors: usize,
    pub paths: usize,
    pub circulations: usize,
}

// What the list says of a flowgate: 0 and the entitlement in tenths of a MW, or a refusal's number. For C, so no
// `Result`.
#[repr(C)]
#[derive(Clone, Copy)]
pub struct EntitlementAnswer {
    pub refusal: u8,
    pub value: i64,
}

// What an explanation says: the refusal's number or 0, the reason's code, and where the part begins and ends. For C,
// so numbers and no `Finding`.
#[repr(C)]
#[derive(Clone, Copy)]
pub struct ExplanationAnswer {
    pub refusal: u8,
    pub reason: u8,
    pub from: usize,
    pub to: usize,
}

pub fn m2m_settle(sheet: &[u8], list: &[u8]) -> Statement
    ensures { Promise sheet.now list.now result }
{
    settlement::settle(sheet, list)
}

pub fn m2m_report(sheet: &[u8], list: &[u8], out: &mut [u8]) -> Printed
    ensures value { result ≡ reported sheet.now list.now out.old }
    ensures out_after { out.new ≡ left sheet.now list.now out.old }
{
    report::report(sheet, list, out)
}

pub fn m2m_read(sheet: &[u8]) -> ReadAnswer
    ensures { result ≡ read_answer (read_sheet sheet.now) }
{
    match sheet::read(sheet) {
        Err(refused) => ReadAnswer {
            refusal: refused.refusal.number(),
            place: refused.place,
            zones: 0,
            units: 0,
            points: 0,
            pars: 0,
            factors: 0,
            paths: 0,
            circulations: 0,
        },
        Ok(accepted) => {
            let l = accepted.layout;
            ReadAnswer {
                refusal: 0,
                place: 0,
                zones: l.zones,
                units: l.units,
                points: l.points,
                pars: l.pars,
                factors: l.factors,
                paths: l.paths,
                circulations: l.circulations,
            }
        }
    }
}

pub fn m2m_entitlement(list: &[u8], name: &[u8]) -> EntitlementAnswer
    ensures { result ≡ entitlement_answer (entitlement list.now name.now) }
{
    match entitlements::find(list, name) {
        Err(refusal) => EntitlementAnswer {
            refusal: refusal.number(),
            value: 0,
        },
        Ok(value) => EntitlementAnswer { refusal: 0, value },
    }
}

pub fn m2m_hour_open() -> Hour
    ensures { result ≡ opened }
{
    Hour::open()
}

pub fn m2m_hour_add(hour: Hour, sheet: &[u8], list: &[u8]) -> Changed
    ensures { result ≡ added hour (interval (inputs sheet.now list.now)) }
{
    hour.add(sheet, list)
}

pub fn m2m_hour_totals(hour: Hour) -> Totals
    ensures { HourPromise hour result }
{
    grown_hours::totals(hour)
}

pub fn m2m_read_draft(sheet: &[u8]) -> Drafted
    ensures { result ≡ drafted_from sheet.now }
{
    draft_reader::read_draft(sheet)
}

pub fn m2m_write_draft(draft: Draft, out: &mut [u8]) -> Written
    ensures { SheetPromise (given draft) out.old out.new result }
{
    sheet_writer::write_draft(draft, out)
}

// A code, since C has no `Side`: `m2m.h` names them.
fn reason_code(reason: Side) -> u8
    ensures { result ≡ reason_code (reason_of reason) }
{
    match reason {
        Side::Above => 1,
        Side::Below => 2,
        Side::At => 3,
    }
}

pub fn m2m_explain(sheet: &[u8], list: &[u8]) -> ExplanationAnswer
    ensures { result ≡ explanation_answer (explained sheet.now list.now) }
{
    let f = explanation::locate(sheet, list);
    let (refusal, reason) = match f.reason {
        Err(refusal) => (refusal.number(), 0),
        Ok(side) => (0, reason_code(side)),
    };
    ExplanationAnswer {
        refusal,
        reason,
        from: f.from,
        to: f.to,
    }
}
