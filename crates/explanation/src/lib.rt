#![tactic(auto)]
// Which record refuses a sheet, and the reason for the price of an accepted one (document 02, request 7).
ghost use Rattle.std.specs.Prelude.{◌≡◌, ◌≤◌, leb, length};
ghost use Rattle.rows.specs.Refusals.{number};
ghost use Rattle.explanation.specs.Explanation.{behind_records, part_end, side_of, part_of, explained};
ghost use Rattle.explanation.specs.Found.{found, reason_of};
ghost use Rattle.settlement.specs.declared.Interval.{Interval as Settled};
ghost use Rattle.settlement.specs.inner.Parts.{Settles};
ghost use Rattle.explanation.specs.Promise.{Promise};

use rows::Refusal;
use settlement::Interval;
use std::cmp::Ordering;

// The reason for the price: the flow paid on is above, below or at the entitlement.
#[derive(Clone, Copy, Debug, PartialEq, Eq)]
pub enum Side {
    Above,
    Below,
    At,
}

// The settlement's refusal, or the reason for the price of an accepted interval; where the part of the sheet that
// holds the offending record begins and ends. No `Range`: it cannot be copied.
#[derive(Clone, Copy)]
pub struct Finding {
    pub reason: Result<Side, Refusal>,
    pub from: usize,
    pub to: usize,
}

#[tactic(auto, unfolding(crate::specs::Explanation::side_of))]
fn side_of(flow: i64, entitlement: i64) -> Side
    ensures { reason_of result ≡ side_of flow entitlement }
{
    match flow.cmp(&entitlement) {
        Ordering::Greater => Side::Above,
        Ordering::Less => Side::Below,
        Ordering::Equal => Side::At,
    }
}

// Whether the part is the kind byte alone: refusals 1 and 2.
fn of_kind_byte(refusal: Refusal) -> bool
    ensures { result ≡ leb (number refusal) 2 }
{
    matches!(refusal, Refusal::NoHead | Refusal::UnknownKind)
}

// Where the part that begins at a place ends.
fn part_end(sheet: &[u8], refusal: Refusal, from: usize) -> usize
    requires { from ≤ length sheet.now }
    ensures { result ≡ part_end sheet.now (number refusal) from }
{
    let left = sheet.len() - from;
    if left == 0 {
        return from;
    }
    if of_kind_byte(refusal) {
        return from + 1;
    }
    let body = record_table::body_length(sheet[from]);
    if left <= body {
        return sheet.len();
    }
    from + 1 + body
}

// Behind the last record, by the settlement of a sheet whose records all pass.
fn behind_records(end: usize, settled: &Result<Interval, Refusal>) -> Finding
    ensures { (i : Settled) → Settles settled.now i → found result ≡ behind_records end i.statement }
{
    let reason = match settled {
        Ok(i) => Ok(side_of(i.statement.settled, i.statement.entitlement)),
        Err(refusal) => Err(*refusal),
    };
    Finding {
        reason,
        from: end,
        to: end,
    }
}

// The refusal of any two byte strings with the part that it is about, or the reason of an accepted interval.
pub fn locate(sheet: &[u8], list: &[u8]) -> Finding
    ensures { Promise sheet.now list.now (found result) }
{
    match sheet::read(sheet) {
        Err(refused) => Finding {
            reason: Err(refused.refusal),
            from: refused.place,
            to: part_end(sheet, refused.refusal, refused.place),
        },
        Ok(accepted) => {
            let settled = settlement::interval_or_refusal(&accepted, list);
            behind_records(sheet.len(), &settled)
        }
    }
}

// The part itself, of the caller's own sheet: from `from` up to `to` of what is located.
pub fn explain<'a>(sheet: &'a [u8], list: &[u8]) -> &'a [u8]
    ensures { result.now ≡ part_of sheet.now (explained sheet.now list.now) }
{
    let f = locate(sheet, list);
    &sheet[f.from..f.to]
}
