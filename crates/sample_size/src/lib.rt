// The size of a sample without its sign, and whether it is above a level. Here signed numbers end: all that stands on
// this crate compares whole numbers.
#![tactic(auto)]

ghost use Rattle.std.specs.Prelude.{◌≡◌, min, nat_abs};
ghost use Rattle.sample_size.specs.Above.{above};

// |x|, of the least i32 too.
pub fn magnitude(x: i32) -> u32
    ensures { result ≡ nat_abs x }
{
    x.unsigned_abs()
}

// The level in 32 bits; where it has more, their most, which no magnitude is above either. A loop over samples then
// compares numbers of 32 bits, several at once.
fn narrow(level: u64) -> u32
    ensures { result ≡ min level 4294967295 }
{
    level.min(4_294_967_295) as u32
}

// Whether |x| is above the level.
pub fn above(level: u64, x: i32) -> bool
    ensures { result ≡ above level x }
{
    narrow(level) < magnitude(x)
}
