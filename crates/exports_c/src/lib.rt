#![tactic(auto)]
// The functions of `exports` under the names and calls of C: the archive of include/m2m.h.
ghost use Rattle.std.specs.Prelude.{◌≡◌};
ghost use Rattle.sheet.specs.Sheet.{read_sheet};
ghost use Rattle.entitlements.specs.Entitlements.{entitlement};
ghost use Rattle.settlement.specs.Settled.{inputs, interval};
ghost use Rattle.settlement.specs.Promise.{Promise};
ghost use Rattle.report.specs.Report.{reported, left};
ghost use Rattle.hours.specs.Hour.{opened, added};
ghost use Rattle.grown_hours.specs.Promise.{Promise as HourPromise};
ghost use Rattle.drafts.specs.Draft.{given};
ghost use Rattle.draft_reader.specs.DraftReader.{drafted_from};
ghost use Rattle.sheet_writer.specs.Promise.{Promise as SheetPromise};
ghost use Rattle.explanation.specs.Explanation.{explained};
ghost use Rattle.exports.specs.Answers.{read_answer, entitlement_answer, explanation_answer};

use draft_reader::Drafted;
use drafts::Draft;
use exports::{EntitlementAnswer, ExplanationAnswer, ReadAnswer};
use hours::{Changed, Hour, Totals};
use listing::Printed;
use sheet_writer::Written;
use statement::Statement;

#[unsafe(no_mangle)]
pub extern "C" fn m2m_settle(sheet: &[u8], list: &[u8]) -> Statement
    ensures { Promise sheet.now list.now result }
{
    exports::m2m_settle(sheet, list)
}

#[unsafe(no_mangle)]
pub extern "C" fn m2m_report(sheet: &[u8], list: &[u8], out: &mut [u8]) -> Printed
    ensures value { result ≡ reported sheet.now list.now out.old }
    ensures out_after { out.new ≡ left sheet.now list.now out.old }
{
    exports::m2m_report(sheet, list, out)
}

#[unsafe(no_mangle)]
pub extern "C" fn m2m_read(sheet: &[u8]) -> ReadAnswer
    ensures { result ≡ read_answer (read_sheet sheet.now) }
{
    exports::m2m_read(sheet)
}

#[unsafe(no_mangle)]
pub extern "C" fn m2m_entitlement(list: &[u8], name: &[u8]) -> EntitlementAnswer
    ensures { result ≡ entitlement_answer (entitlement list.now name.now) }
{
    exports::m2m_entitlement(list, name)
}

#[unsafe(no_mangle)]
pub extern "C" fn m2m_hour_open() -> Hour
    ensures { result ≡ opened }
{
    exports::m2m_hour_open()
}

#[unsafe(no_mangle)]
pub extern "C" fn m2m_hour_add(hour: Hour, sheet: &[u8], list: &[u8]) -> Changed
    ensures { result ≡ added hour (interval (inputs sheet.now list.now)) }
{
    exports::m2m_hour_add(hour, sheet, list)
}

#[unsafe(no_mangle)]
pub extern "C" fn m2m_hour_totals(hour: Hour) -> Totals
    ensures { HourPromise hour result }
{
    exports::m2m_hour_totals(hour)
}

#[unsafe(no_mangle)]
pub extern "C" fn m2m_read_draft(sheet: &[u8]) -> Drafted
    ensures { result ≡ drafted_from sheet.now }
{
    exports::m2m_read_draft(sheet)
}

#[unsafe(no_mangle)]
pub extern "C" fn m2m_write_draft(draft: Draft, out: &mut [u8]) -> Written
    ensures { SheetPromise (given draft) out.old out.new result }
{
    exports::m2m_write_draft(draft, out)
}

#[unsafe(no_mangle)]
pub extern "C" fn m2m_explain(sheet: &[u8], list: &[u8]) -> ExplanationAnswer
    ensures { result ≡ explanation_answer (explained sheet.now list.now) }
{
    exports::m2m_explain(sheet, list)
}
