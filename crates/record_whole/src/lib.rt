// A whole record at once: the tests 1, 12, 2, 3 and 4 that stand before anything is counted in it.
#![tactic(auto)]

ghost use Rattle.std.specs.Prelude.{◌≡◌, cond, length, Err};
ghost use Rattle.refusal.specs.declared.Refusal.TheVariants.{TooLong, TooShort};
ghost use Rattle.sample_range.specs.Range.{first_bad};
ghost use Rattle.sample_channels.specs.Channels.{any_bad, bad_sample};
ghost use Rattle.record_whole.specs.Tests.{sized};

use refusal::Refusal;
use sample_items::Items;

// 2 for a record with a bad sample; else what its length is refused by.
fn fault(roll: &[i32], acceleration: &[i32], long: bool) -> Result<(), Refusal>
    requires { length roll.now ≡ length acceleration.now }
    ensures { result ≡ cond (any_bad roll.now acceleration.now)
        (Err (bad_sample (first_bad roll.now) (first_bad acceleration.now)))
        (cond long (Err TooLong) (Err TooShort)) }
{
    sample_channels::look_over(roll, acceleration)?;
    if long {
        Err(Refusal::TooLong)
    } else {
        Err(Refusal::TooShort)
    }
}

// Refusal 1, then 12; for a record that is too long or too short 2, which goes before them, then 3 or 4; else that it
// fits, with no sample looked at yet, so that who reads the samples next looks for a bad one on the way.
pub fn judge(items: Items, roll: &[i32], acceleration: &[i32]) -> Result<(), Refusal>
    ensures { result ≡ sized items roll.now acceleration.now }
{
    let item = sample_items::item_outside(items);
    if item != 0 {
        return Err(Refusal::Item(item));
    }
    if roll.len() != acceleration.len() {
        return Err(Refusal::Unequal);
    }
    let n = roll.len() as u64;
    let most = sample_items::most_samples(items.step, items.ramp);
    if truth::both(n <= most, items.ramp + 2 <= n) {
        return Ok(());
    }
    fault(roll, acceleration, most < n)
}
