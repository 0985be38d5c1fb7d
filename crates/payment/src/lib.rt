#![tactic(auto)]
// The payment (document 01, 'The payment'; section 7.2), and refusal 22 on the flow that is paid on.
ghost use Rattle.std.specs.Prelude.{◌≡◌, ◌≤◌, nat_abs};
ghost use Rattle.rows.specs.Refusals.{row_of};
ghost use Rattle.records.specs.Codes.{rto_code};
ghost use Rattle.record_rows.specs.inner.Valid.{HeadFits};
ghost use Rattle.figures.specs.Flow.{flow_row};
ghost use Rattle.figures.specs.Payment.{in_watts, price, amount_of, payment};
ghost use Rattle.figures.specs.inner.Most.{most_difference, most_amount};
ghost use Rattle.payment.specs.inner.Payment.{payment_of, Payable};

use records::{Head, Rto};
use rows::Refusal;
use std::cmp::Ordering;

// entitlement: in watts. price: the one taken.
#[derive(Clone, Copy)]
pub struct Payment {
    pub entitlement: i64,
    pub price: i64,
    pub amount: i64,
    pub nyiso: i64,
    pub pjm: i64,
}

// An entitlement in watts.
#[tactic(auto, unfolding(figures::specs::Payment::in_watts))]
pub fn in_watts(entitlement: i64) -> i64
    requires { nat_abs entitlement ≤ 100000 }
    ensures { result ≡ in_watts entitlement }
{
    entitlement * 100_000
}

// Of the flow that is paid on, either way.
const MOST_FLOW: u64 = 10_000_000_000;

#[tactic(auto, unfolding(figures::specs::Flow::flow_row))]
pub fn flow_row(flow: i64) -> Result<(), Refusal>
    ensures { row_of result ≡ flow_row flow }
{
    rows::row(Refusal::FlowTooLarge, MOST_FLOW < flow.unsigned_abs())
}

// The price by the difference's side of the entitlement.
#[tactic(auto, unfolding(figures::specs::Payment::price))]
fn price_of(h: &Head, difference: i64) -> i64
    ensures { result ≡ price h.now difference }
{
    match difference.cmp(&0) {
        Ordering::Less => h.nonmonitoring_price as i64,
        Ordering::Equal => 0,
        Ordering::Greater => h.monitoring_price as i64,
    }
}

fn amount_of(h: &Head, difference: i64) -> i64
    requires { HeadFits h.now × (nat_abs difference ≤ most_difference) }
    ensures { result ≡ amount_of h.now difference }
{
    let price = price_of(h, difference);
    let seconds = h.seconds as i64;
    quotient::rounded_quotient(difference * price * seconds, 3_600_000).quotient
}

#[tactic(auto, unfolding(figures::specs::Payment::payment))]
fn paid_to(h: &Head, amount: i64, rto: Rto) -> i64
    requires { nat_abs amount ≤ most_amount }
    ensures { result ≡ payment h.now amount (rto_code rto) }
{
    if h.monitoring_rto == rto.code() {
        amount
    } else {
        -amount
    }
}

// watts: the entitlement.
#[tactic(auto, using(figures::proofs::Payments::amount_of_within))]
pub fn pay(h: &Head, flow: i64, watts: i64) -> Payment
    requires { Payable h.now flow watts }
    ensures { result ≡ payment_of h.now flow watts }
{
    let difference = flow - watts;
    let amount = amount_of(h, difference);
    Payment {
        entitlement: watts,
        price: price_of(h, difference),
        amount,
        nyiso: paid_to(h, amount, Rto::Nyiso),
        pjm: paid_to(h, amount, Rto::Pjm),
    }
}
