// The search for the place of the first crossing of a whole record: the record's first failure. Only the places that
// both channels have are looked at.
#![tactic(auto)]

ghost use Rattle.std.specs.Prelude.{◌≡◌, ◌≤◌, length};
ghost use Rattle.sample_channels.specs.Channels.{moments};
ghost use Rattle.crossing_places.specs.Reading.{first_crossing};
ghost use Rattle.crossing_search.specs.Rise.{FirstRise};

use sample_channels::Levels;

// The place of the first crossing from `from` on and before `end`; `end` if there is none. A quiet block is passed
// over. No `Option`, which is no plainer: where there is none the search goes on at `end`.
fn rise_in(roll: &[i32], acceleration: &[i32], levels: Levels, from: usize, end: usize) -> usize
    requires { (1 ≤ from) × (from ≤ end) × (end ≤ length roll.now) × (end ≤ length acceleration.now) }
    ensures { FirstRise levels (moments roll.now acceleration.now) from end result }
{
    if !sample_channels::loud(levels, &roll[from..end], &acceleration[from..end]) {
        return end;
    }
    for i in from..end {
        let x = sample_channels::moment_at(roll, acceleration, i - 1);
        let y = sample_channels::moment_at(roll, acceleration, i);
        if crossing_places::rises(levels, x, y) {
            return i;
        }
    }
    end
}

// The place of the first crossing of a whole record; its length, which is no place in it, if there is none.
pub fn first_crossing(roll: &[i32], acceleration: &[i32], ramp: u64, levels: Levels) -> usize
    ensures { result ≡ first_crossing (length (moments roll.now acceleration.now)) ramp levels
        (moments roll.now acceleration.now) }
{
    let n = roll.len().min(acceleration.len());
    if n as u64 <= ramp {
        return n;
    }
    let mut i = ramp as usize + 1;
    // A `loop` that breaks with the place, as document 01 has it ("List of forms by place"). No `chunks`: a block's
    // first sample is compared with the one before the block.
    let place = loop {
        if i >= n {
            break n;
        }
        let end = sample_block::end(i, n);
        let at = rise_in(roll, acceleration, levels, i, end);
        if at < end {
            break at;
        }
        i = end;
    };
    place
}
