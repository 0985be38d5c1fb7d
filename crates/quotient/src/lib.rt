#![tactic(auto)]
// The rounded quotient (document 01, 'Units'; document 02, request 2).
ghost use Rattle.std.specs.Prelude.{◌≡◌, ◌<◌, pos, nat_abs, ◌<ℤ◌};
ghost use Rattle.quotient.specs.Rounded.{IsRounded, goes_away, quotient, remainder};
ghost use Rattle.quotient.specs.inner.Step.{step};

#[derive(Clone, Copy)]
pub struct Quotient {
    pub quotient: i64,
    pub remainder: i64,
}

// Whether the quotient m toward zero goes one further: size is what it leaves, rest what that lacks of the divisor.
// Halves go to even.
#[tactic(auto, unfolding(crate::specs::Rounded::goes_away))]
fn goes_away(m: u64, size: u64, rest: u64) -> bool
    ensures { result ≡ goes_away m size rest }
{
    if rest == size {
        m % 2 == 1
    } else {
        rest < size
    }
}

// The step from the quotient q toward zero to the nearest.
// Sizes are compared with what they lack of d, since twice a size may not fit.
#[tactic(auto, using(crate::proofs::Step::signum_steps, crate::proofs::Step::stays))]
fn step_of(q: i64, r: i64, d: i64) -> i64
    requires { (pos 0 <ℤ d) × (nat_abs r < nat_abs d) }
    ensures { result ≡ step q r d }
{
    let size = integers::magnitude(r);
    let rest = integers::magnitude(d) - size;
    if goes_away(integers::magnitude(q), size, rest) {
        r.signum()
    } else {
        0
    }
}

// For every n, and every d above zero.
pub fn rounded_quotient(n: i64, d: i64) -> Quotient
    requires { pos 0 <ℤ d }
    ensures { (result.quotient ≡ quotient n d) × (result.remainder ≡ remainder n d) × IsRounded n d result.quotient }
{
    let q = n / d;
    let r = n % d;
    let k = step_of(q, r, d);
    Quotient {
        quotient: q + k,
        remainder: r - k * d,
    }
}
