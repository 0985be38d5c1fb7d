#![tactic(auto)]
// The cells of an hour (document 02, request 1): how many of them count, and what those come to.
ghost use Rattle.std.specs.Prelude.{◌≡◌, ◌≤◌};
ghost use Rattle.hour_cells.specs.Cells.{held, cell, seconds_of, amount_of};

// As many as an hour can hold intervals.
pub const CELLS: usize = 60;

// No interval's amount is further from zero.
const MOST_AMOUNT: i64 = 2_000_000_000_000;

// A count, since an hour is C's: how many of its cells are filled, or more than there are.
#[tactic(auto, unfolding(crate::specs::Cells::held))]
fn held(count: usize) -> usize
    ensures { (result ≡ held count) × (result ≤ 60) }
{
    count.min(CELLS)
}

// A cell's amount: no further from zero than an interval's can be.
#[tactic(auto, using(crate::proofs::Cells::clamped))]
fn cell_of(x: i64) -> i64
    ensures { result ≡ cell x }
{
    x.clamp(-MOST_AMOUNT, MOST_AMOUNT)
}

// A loop: `sums::sum_to` gives an i64, and what is promised here fits a u32.
#[tactic(auto, using(crate::proofs::Cells::seconds_zero), unfolding(crate::specs::Cells::seconds_of))]
pub fn seconds_of(seconds: [u16; CELLS], count: usize) -> u32
    ensures { (result ≡ seconds_of seconds count) × (result ≤ 3932100) }
{
    let mut sum: u32 = 0;
    for s in &seconds[..held(count)] {
        sum += u32::from(*s);
    }
    sum
}

pub fn amount_of(amounts: [i64; CELLS], count: usize) -> i64
    ensures { result ≡ amount_of amounts count }
{
    sums::sum_to(held(count), |i| cell_of(amounts[i]))
}
