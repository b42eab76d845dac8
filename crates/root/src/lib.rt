// A whole square root, rounded up, for every two numbers of 64 bits; and the half-width of a count by the normal
// approximation, which is one.
#![tactic(auto)]

ghost use Rattle.std.specs.Prelude.{◌≡◌};
ghost use Rattle.root.specs.HalfWidth.{measured, width_within};
ghost use Rattle.root.specs.Root.{Root, least_root};

// The least number whose square is at least b.
fn root_of(b: u64) -> u64
    ensures { Root b result }
{
    let root = b.isqrt();
    if root * root < b { root + 1 } else { root }
}

// The least number whose square times p is at least a; 0 where p is 0.
pub fn least(a: u64, p: u64) -> u64
    ensures { result ≡ least_root a p }
{
    if p == 0 {
        return 0;
    }
    root_of(a.div_ceil(p))
}

fn measured(factor: u64, n: u64, p: u64) -> bool
    ensures { result ≡ measured factor n p }
{
    factor <= 3_000 && n <= 10_000 && n <= p && p <= 100_000_000
}

// The half-width of n failures among p samples, in thousandths of a failure, by a factor in thousandths; 0 for a factor
// above 3, more than 10,000 failures or 100,000,000 samples, or more failures than samples.
pub fn half_width(factor: u64, n: u64, p: u64) -> u64
    ensures { result ≡ width_within factor n p }
{
    if !measured(factor, n, p) {
        return 0;
    }
    least(factor * factor * n * (p - n), p)
}
