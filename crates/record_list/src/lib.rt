// The counted times of a whole record, each group's by its first crossing, listed into lent memory. The timed samples
// are read once, block by block, and a quiet block is passed over. The times found on the way are kept aside, since
// refusal 7 must know their number before anything is written; only if they are too many is the record read again.
// Where that is to be expected, and the lent slice has room for half as many times as there are samples, which are
// the most, they are not counted first. specs/Walk says what a sample does to the walk and to the times noted on the
// way, proofs/Walked that these are the counted times.
#![tactic(auto)]

ghost use Rattle.std.specs.Prelude.{◌≡◌, true, false, ◌+◌, ◌*◌, ◌≤◌, ◌<◌, length, set, take, Err};
ghost use Rattle.record_list.specs.Walk.{starts, passed, start, noting, marked, noted, Ready};
ghost use mathlib.Core.List.{foldl};
ghost use Rattle.std.proofs.Math.Seq.{paste};
ghost use Rattle.sample_channels.specs.Channels.{moments, any_above, any_bad, bad_sample};
ghost use Rattle.crossing_places.specs.Reading.{counted_times, unramped};
ghost use Rattle.sample_range.specs.Range.{first_bad};
ghost use Rattle.record_list.specs.Pass.{Passes, Heard};
ghost use Rattle.record_whole.specs.Tests.{Fitting};
ghost use Rattle.record_list.specs.Answers.{WritesTo, SettlesTo, ListsTo};

use refusal::Refusal;
use sample_items::Items;

// The walk before a timed sample: its time, whether a timed sample that is above in neither channel stands before it,
// how many groups were counted, and from what time on a crossing starts a group.
#[derive(Clone, Copy)]
pub struct Walk {
    pub below: bool,
    pub time: u64,
    pub count: u64,
    pub due: u64,
}

// Whether a crossing at the walk's time starts a group.
pub fn starts(w: Walk) -> bool
    ensures { result ≡ starts w }
{
    w.due <= w.time
}

// How many times are kept aside: with a decorrelation time of 5 s or more no record has more.
const KEPT: usize = 2_048;

// So many samples in the middle of a record are looked at, and if so many of them are counted, more times than are
// kept aside are expected.
const LOOK: usize = 1_024;

const CROWD: u64 = 256;

fn start() -> Walk
    ensures { result ≡ start }
{
    Walk {
        below: false,
        time: 0,
        count: 0,
        due: 0,
    }
}

// The walk after k samples above in neither channel.
fn passed(items: Items, w: Walk, k: usize) -> Walk
    requires { Ready items.step items.decorrelation w k }
    ensures { result ≡ passed items.step w k }
{
    Walk {
        below: true,
        time: w.time + k as u64 * items.step,
        count: w.count,
        due: w.due,
    }
}

// Puts a time at a place, if there is such a place.
fn put(time: u64, place: u64, times: &mut [u32])
    requires { time ≤ 20000000 }
    ensures { times.new ≡ set times.old place time }
{
    if place < times.len() as u64 {
        let k = place as usize;
        times[k] = time as u32;
    }
}

// The walk after a sample at which a level is crossed; the time of a group that starts there is put into the next
// place.
fn crossed(items: Items, w: Walk, times: &mut [u32]) -> Walk
    requires { Ready items.step items.decorrelation w 1 × (w.below ≡ true) }
    ensures { noting result times.new ≡ marked items.step items.decorrelation (noting w times.old) true }
{
    if starts(w) {
        put(w.time, w.count, times);
        return Walk {
            below: false,
            time: w.time + items.step,
            count: w.count + 1,
            due: w.time + items.decorrelation,
        };
    }
    Walk {
        below: false,
        time: w.time + items.step,
        count: w.count,
        due: w.time + items.decorrelation,
    }
}

// The walk after a sample that is above or not.
fn stepped(items: Items, w: Walk, up: bool, times: &mut [u32]) -> Walk
    requires { Ready items.step items.decorrelation w 1 }
    ensures { noting result times.new ≡ marked items.step items.decorrelation (noting w times.old) up }
{
    if truth::both(w.below, up) {
        return crossed(items, w, times);
    }
    Walk {
        below: !up,
        time: w.time + items.step,
        count: w.count,
        due: w.due,
    }
}

// The walk over samples of which it is known whether they are above.
fn along(items: Items, w: Walk, ups: &[bool], times: &mut [u32]) -> Walk
    requires { Ready items.step items.decorrelation w (length ups.now) }
    ensures { noting result times.new
        ≡ foldl (marked items.step items.decorrelation) (noting w times.old) ups.now }
{
    let mut v = w;
    for up in ups {
        v = stepped(items, v, *up, times);
    }
    v
}

// The walk over a block: all its samples are looked at first, several at once, and then the walk goes along.
fn walk_block(items: Items, w: Walk, roll: &[i32], acceleration: &[i32], times: &mut [u32]) -> Walk
    requires { Ready items.step items.decorrelation w (length roll.now) × (length roll.now ≡ length acceleration.now)
        × (length roll.now ≤ 64) }
    ensures { noting result times.new
        ≡ foldl (noted items.step items.levels items.decorrelation) (noting w times.old)
        (moments roll.now acceleration.now) }
{
    let mut ups = [false; sample_block::BLOCK];
    sample_channels::mark(items.levels, roll, acceleration, &mut ups);
    along(items, w, &ups[..roll.len()], times)
}

// The same, where it is known whether a sample of the block is above its level.
fn advance(
    items: Items,
    w: Walk,
    loud: bool,
    roll: &[i32],
    acceleration: &[i32],
    times: &mut [u32],
) -> Walk
    requires { Ready items.step items.decorrelation w (length roll.now) × (length roll.now ≡ length acceleration.now)
        × (length roll.now ≤ 64) × (loud ≡ any_above items.levels roll.now acceleration.now)
        × (1 ≤ length roll.now) }
    ensures { noting result times.new
        ≡ foldl (noted items.step items.levels items.decorrelation) (noting w times.old)
        (moments roll.now acceleration.now) }
{
    if loud {
        return walk_block(items, w, roll, acceleration, times);
    }
    passed(items, w, roll.len())
}

// The walk over timed samples, block by block, up to one with a bad sample. The ends of a block say whether it has
// one, and whether a sample is above its level.
fn pass(items: Items, roll: &[i32], acceleration: &[i32], times: &mut [u32]) -> Option<u64>
    requires { Ready items.step items.decorrelation start (length roll.now)
        × (length roll.now ≡ length acceleration.now) }
    ensures { Passes items.step items.levels items.decorrelation roll.now acceleration.now
        times.old result times.new }
{
    let mut w = start();
    let mut i = 0;
    // By the place of a block, by which both slices are cut: `chunks` of each, zipped, would say no more.
    while i < roll.len() {
        let end = sample_block::end(i, roll.len());
        let rolls = &roll[i..end];
        let accelerations = &acceleration[i..end];
        let e = sample_block::ends_of(rolls);
        let f = sample_block::ends_of(accelerations);
        if sample_channels::outside(e, f) {
            return None;
        }
        let loud = sample_channels::past(items.levels, e, f);
        w = advance(items, w, loud, rolls, accelerations, times);
        i = end;
    }
    Some(w.count)
}

// Copies the first k times.
fn copy(kept: &[u32], k: usize, times: &mut [u32])
    requires { (k ≤ length kept.now) × (k ≤ length times.old) }
    ensures { times.new ≡ paste times.old 0 kept.now k }
{
    times[..k].copy_from_slice(&kept[..k]);
}

// Writes the counted times, if there are places for them: those kept aside, if they are all there, else by a second
// pass.
fn write(
    items: Items,
    roll: &[i32],
    acceleration: &[i32],
    count: u64,
    kept: &[u32],
    times: &mut [u32],
) -> Result<u64, Refusal>
    requires { Ready items.step items.decorrelation start (length roll.now) × (length roll.now ≡ length acceleration.now)
        × (any_bad roll.now acceleration.now ≡ false)
        × (count ≡ length (counted_times (unramped items.step items.levels items.decorrelation) (moments roll.now acceleration.now)))
        × (count ≤ length kept.now → take count kept.now
        ≡ counted_times (unramped items.step items.levels items.decorrelation) (moments roll.now acceleration.now)) }
    ensures { WritesTo
        (counted_times (unramped items.step items.levels items.decorrelation) (moments roll.now acceleration.now))
        times.old result times.new }
{
    if (times.len() as u64) < count {
        return Err(Refusal::Room(count));
    }
    if count <= kept.len() as u64 {
        copy(kept, count as usize, times);
        return Ok(count);
    }
    pass(items, roll, acceleration, times);
    Ok(count)
}

// Whether the times are written straight into a slice of so many places. Room for half as many as samples it must
// have; the rest is a guess, on which only the time that it takes depends.
fn writes_at_once(items: Items, roll: &[i32], acceleration: &[i32], places: usize) -> bool
    requires { Ready items.step items.decorrelation start (length roll.now)
        × (length roll.now ≡ length acceleration.now) }
    ensures { result ≡ true → length roll.now ≤ 2 * places + 1 }
{
    let half = roll.len() / 2;
    if half <= KEPT {
        return false;
    }
    if places < half {
        return false;
    }
    let mut first = [0u32; 1];
    let found = pass(
        items,
        &roll[half..half + LOOK],
        &acceleration[half..half + LOOK],
        &mut first,
    );
    if let Some(n) = found {
        return CROWD <= n;
    }
    false
}

// What the first pass, which noted into `kept`, comes to.
fn settle(
    items: Items,
    roll: &[i32],
    acceleration: &[i32],
    found: Option<u64>,
    kept: &[u32],
    times: &mut [u32],
) -> Option<Result<u64, Refusal>>
    requires { Ready items.step items.decorrelation start (length roll.now) × (length roll.now ≡ length acceleration.now)
        × Heard items.step items.levels items.decorrelation roll.now acceleration.now found kept.now }
    ensures { SettlesTo items.step items.levels items.decorrelation roll.now acceleration.now
        times.old result times.new }
{
    match found {
        None => None,
        Some(n) => Some(write(items, roll, acceleration, n, kept, times)),
    }
}

// The walk over timed samples, block by block, of which none is passed over.
fn walk_all(items: Items, roll: &[i32], acceleration: &[i32], times: &mut [u32]) -> Walk
    requires { Ready items.step items.decorrelation start (length roll.now)
        × (length roll.now ≡ length acceleration.now) }
    ensures { noting result times.new
        ≡ foldl (noted items.step items.levels items.decorrelation) (noting start times.old)
        (moments roll.now acceleration.now) }
{
    let mut w = start();
    let mut i = 0;
    // By the place of a block, by which both slices are cut: `chunks` of each, zipped, would say no more.
    while i < roll.len() {
        let end = sample_block::end(i, roll.len());
        w = walk_block(items, w, &roll[i..end], &acceleration[i..end], times);
        i = end;
    }
    w
}

// The timed samples, listed into a slice with room for all times there can be.
fn list_at_once(
    items: Items,
    roll: &[i32],
    acceleration: &[i32],
    times: &mut [u32],
) -> Option<Result<u64, Refusal>>
    requires { Ready items.step items.decorrelation start (length roll.now) × (length roll.now ≡ length acceleration.now)
        × (length roll.now ≤ 2 * length times.old + 1) }
    ensures { SettlesTo items.step items.levels items.decorrelation roll.now acceleration.now
        times.old result times.new }
{
    let look = sample_channels::look_over(roll, acceleration);
    if let Err(_) = look {
        return None;
    }
    let w = walk_all(items, roll, acceleration, times);
    Some(Ok(w.count))
}

// The timed samples, listed.
fn list_timed(
    items: Items,
    roll: &[i32],
    acceleration: &[i32],
    times: &mut [u32],
) -> Option<Result<u64, Refusal>>
    requires { Ready items.step items.decorrelation start (length roll.now)
        × (length roll.now ≡ length acceleration.now) }
    ensures { SettlesTo items.step items.levels items.decorrelation roll.now acceleration.now
        times.old result times.new }
{
    if writes_at_once(items, roll, acceleration, times.len()) {
        return list_at_once(items, roll, acceleration, times);
    }
    let mut kept = [0u32; KEPT];
    let found = pass(items, roll, acceleration, &mut kept);
    settle(items, roll, acceleration, found, &kept, times)
}

// Refusal 2 of a record that has a bad sample, which is looked for from its start.
fn fault(roll: &[i32], acceleration: &[i32]) -> Result<u64, Refusal>
    requires { length roll.now ≡ length acceleration.now }
    ensures { any_bad roll.now acceleration.now ≡ true → result
        ≡ Err (bad_sample (first_bad roll.now) (first_bad acceleration.now)) }
{
    sample_channels::look_over(roll, acceleration)?;
    Err(Refusal::TooShort)
}

// A record whose items and length are right, listed: a bad sample of the ramp goes before all that the timed samples
// say.
fn list_fitting(
    items: Items,
    roll: &[i32],
    acceleration: &[i32],
    times: &mut [u32],
) -> Result<u64, Refusal>
    requires { Fitting items (length roll.now) (length acceleration.now) }
    ensures { ListsTo items roll.now acceleration.now
        times.old result times.new }
{
    let from = items.ramp as usize;
    if let Err(_) = sample_channels::look_over(&roll[..from], &acceleration[..from]) {
        return fault(roll, acceleration);
    }
    let settled = list_timed(items, &roll[from..], &acceleration[from..], times);
    match settled {
        Some(listed) => listed,
        None => fault(roll, acceleration),
    }
}

// A whole record at once: the counted times, in order, from the start of `times`, whose rest stays, and their number;
// or refusal 1, 12, 2, 3, 4 or 7 with the places needed, and `times` as it stood.
pub fn list(
    items: Items,
    roll: &[i32],
    acceleration: &[i32],
    times: &mut [u32],
) -> Result<u64, Refusal>
    ensures { ListsTo items roll.now acceleration.now
        times.old result times.new }
{
    record_whole::judge(items, roll, acceleration)?;
    list_fitting(items, roll, acceleration, times)
}
