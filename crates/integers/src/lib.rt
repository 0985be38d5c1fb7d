#![tactic(auto)]
// Whole numbers. The laws that the other crates' proofs use stand in proofs/.
ghost use Rattle.std.specs.Prelude.{◌≡◌, nat_abs};

// How far x is from zero. One promise over whole numbers, where `unsigned_abs` has its over their machine form.
pub fn magnitude(x: i64) -> u64
    ensures { result ≡ nat_abs x }
{
    x.unsigned_abs()
}
