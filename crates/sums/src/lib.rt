#![tactic(auto)]
// Sums over indices.
ghost use Rattle.sums.specs.inner.Summing.{Summable, IsSum};

// The sum of what a closure gives at the indices below n.
// No `sum` of an iterator: its contract asks that every run of it stays in range, which is longer to show.
pub fn sum_to<F: Fn(usize) -> i64>(n: usize, term: F) -> i64
    requires { Summable (F.pre term) (F.post term) n }
    ensures { IsSum (F.post term) n result }
{
    let mut sum: i64 = 0;
    for i in 0..n {
        sum += term(i);
    }
    sum
}
