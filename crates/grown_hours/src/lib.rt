#![tactic(auto)]
// Hours grown from an empty one (document 02, request 1): what an hour's totals are by the intervals that it took.
ghost use Rattle.grown_hours.specs.Promise.{Promise};

use hours::{Hour, Totals};

pub fn totals(hour: Hour) -> Totals
    ensures { Promise hour result }
{
    hour.totals()
}
