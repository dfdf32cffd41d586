// Lists in the order of a test: what sorted means, and what is proved of it for every test that is an order; no code but a search by
// bisection.
#![tactic(auto)]

ghost use Rattle.std.specs.Prelude.{ℕ, ◌-◌, ◌≤◌, ◌<◌, true, false};

// A position up to n at which the test fails, or n, and right before which it holds, if anything is before it. Where the test holds at no
// position behind one at which it fails, that is the first at which it fails.
pub fn partition_point<F: Fn(usize) -> bool>(n: usize, holds: F) -> usize
    requires { (i : ℕ) → i < n → F.pre holds i }
    ensures within { result ≤ n }
    ensures before { 0 < result → F.post holds (result - 1) true }
    ensures after { result < n → F.post holds result false }
{
    let mut low = 0;
    let mut high = n;
    while low < high {
        let middle = low + (high - low) / 2;
        if holds(middle) {
            low = middle + 1;
        } else {
            high = middle;
        }
    }
    low
}
