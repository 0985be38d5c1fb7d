#![tactic(auto)]
// Whole hours (document 02, request 1; source 000, section 7.2): intervals of one flowgate and one Monitoring RTO.
ghost use Rattle.std.specs.Prelude.{◌≡◌, ◌<◌};
ghost use Rattle.settlement.specs.Settled.{inputs, interval};
ghost use Rattle.hours.specs.Hour.{opened, is_other, hour_row, with_interval, added};
ghost use Rattle.hours.specs.Totals.{totals_of};
ghost use Rattle.rows.specs.Refusals.{row_of};

use records::Rto;
use rows::{Refusal, row};
use settlement::Interval;

// The amounts and seconds of its intervals stand in the first `count` cells. The cells behind them are zero, and so
// are an empty hour's name and Monitoring RTO: two hours are the same where all of this is. C keeps it between calls:
// so two arrays and no array of structs, a count and no slice, a code and no `Rto`.
#[repr(C)]
#[derive(Clone, Copy)]
pub struct Hour {
    amounts: [i64; Hour::INTERVALS],
    seconds: [u16; Hour::INTERVALS],
    count: usize,
    name: [u8; 16],
    monitoring_rto: u8,
}

// 0 and the hour with a change, or a refusal's number and the hour as it was. C is handed it, so no `Result`.
#[repr(C)]
#[derive(Clone, Copy)]
pub struct Changed {
    pub refusal: u8,
    pub hour: Hour,
}

// Amount and payments are thousandths of a cent. A payment is positive where the RTO receives it.
#[repr(C)]
#[derive(Clone, Copy)]
pub struct Totals {
    pub seconds: u32,
    pub amount: i64,
    pub nyiso: i64,
    pub pjm: i64,
}

impl Hour {
    pub const INTERVALS: usize = hour_cells::CELLS;

    pub const SECONDS: u32 = 3600;

    pub fn open() -> Hour
        ensures { result ≡ opened }
    {
        Hour {
            amounts: [0; Self::INTERVALS],
            seconds: [0; Self::INTERVALS],
            count: 0,
            name: [0; 16],
            monitoring_rto: 0,
        }
    }

    // Whether the interval is of another flowgate or Monitoring RTO than those that the hour has.
    #[tactic(auto, unfolding(crate::specs::Hour::is_other))]
    fn is_other(&self, i: &Interval) -> bool
        ensures { result ≡ is_other self.now i.now }
    {
        let other_rto = self.monitoring_rto != i.monitoring_rto;
        let other_name = !names::same_name(self.name, i.statement.name);
        (self.count != 0) & (other_rto | other_name)
    }

    // Rows 24 to 26.
    #[tactic(auto, unfolding(crate::specs::Hour::hour_row))]
    fn row_for(&self, i: &Interval) -> Result<(), Refusal>
        ensures { row_of result ≡ hour_row self.now i.now }
    {
        row(Refusal::HourFull, self.count >= Self::INTERVALS)?;
        let seconds = hour_cells::seconds_of(self.seconds, self.count);
        row(
            Refusal::HourTooLong,
            seconds + u32::from(i.seconds) > Self::SECONDS,
        )?;
        row(Refusal::OtherInterval, self.is_other(i))
    }

    fn with_interval(mut self, i: &Interval) -> Hour
        requires { self.count < 60 }
        ensures { result ≡ with_interval self i.now }
    {
        let n = self.count;
        self.amounts[n] = i.statement.amount;
        self.seconds[n] = i.seconds;
        self.count = n + 1;
        self.name = i.statement.name;
        self.monitoring_rto = i.monitoring_rto;
        self
    }

    // The hour as it was, beside a refusal's number: 24 to 26, or the settlement's, which is a number as C has it.
    fn refusing(self, refusal: u8) -> Changed
        ensures { result ≡ record { refusal = refusal; hour = self } }
    {
        Changed {
            refusal,
            hour: self,
        }
    }

    // The hour with a settled interval, or the refusal's number beside the hour as it was.
    #[tactic(auto, unfolding(crate::specs::Hour::added, crate::specs::Hour::refusal_of), using(rows::proofs::Refusing::refuses))]
    pub fn take(mut self, i: Interval) -> Changed
        ensures { result ≡ added self i }
    {
        if i.statement.refusal != 0 {
            return self.refusing(i.statement.refusal);
        }
        match self.row_for(&i) {
            Err(refusal) => self.refusing(refusal.number()),
            Ok(()) => {
                self = self.with_interval(&i);
                Changed {
                    refusal: 0,
                    hour: self,
                }
            }
        }
    }

    // The hour with the interval of a sheet and a list, or the refusal's number beside the hour as it was.
    pub fn add(mut self, sheet: &[u8], list: &[u8]) -> Changed
        ensures { result ≡ added self (interval (inputs sheet.now list.now)) }
    {
        let i = settlement::settle_interval(sheet, list);
        self.take(i)
    }

    pub fn totals(self) -> Totals
        ensures { result ≡ totals_of self }
    {
        let seconds = hour_cells::seconds_of(self.seconds, self.count);
        let amount = hour_cells::amount_of(self.amounts, self.count);
        if self.monitoring_rto == Rto::Nyiso.code() {
            return Totals {
                seconds,
                amount,
                nyiso: amount,
                pjm: -amount,
            };
        }
        Totals {
            seconds,
            amount,
            nyiso: -amount,
            pjm: amount,
        }
    }
}
