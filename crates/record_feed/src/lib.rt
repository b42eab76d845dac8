// Feeding a record: the samples of its two channels, handed over in pieces. The state goes in by value and comes back
// in the answer, so a refusal leaves the caller's as it stood.
#![tactic(auto)]

ghost use Rattle.std.specs.Prelude.{◌≡◌, true, false, cond, ◌+◌, ◌-◌, ◌≤◌, ◌<◌, min, length, Err};
ghost use mathlib.Core.List.{foldl, map};
ghost use Rattle.refusal.specs.declared.Refusal.TheVariants.{TooLong};
ghost use Rattle.sample_channels.specs.Channels.{above, moments, any_above, any_bad, bad_sample};
ghost use Rattle.sample_items.specs.Limits.{most_samples};
ghost use Rattle.sample_range.specs.Range.{first_bad};
ghost use Rattle.record_state.specs.State.{sound};
ghost use Rattle.record_feed.specs.Gap.{Gap};
ghost use Rattle.record_feed.specs.Fits.{Fits};
ghost use Rattle.record_step.specs.Step.{moved, far, counts, crossed, below, crosses, stepped};
ghost use Rattle.record_feed.specs.Answers.{fed};

use record_state::Record;
use refusal::Refusal;
use sample_channels::Moment;

// How many samples after a place the decorrelation time has passed. It goes beside the record: a multiplication at each
// crossing in its place was slower (decision 95), and a struct of both, made anew at each sample, is no plainer. Nor is
// one for `sound`: `feed` tests it of a record that anyone may hand in, so that it would be a second `Record`.
fn gap_of(r: Record) -> u64
    requires { sound r ≡ true }
    ensures { Gap r.items.step r.items.decorrelation result }
{
    (r.items.decorrelation + (r.items.step - 1)) / r.items.step
}

// Whether a crossing at sample n is the first, or at least the decorrelation time, which is `gap` samples, after the
// place of an earlier one.
fn far(r: Record, gap: u64, place: u64) -> bool
    requires { Gap r.items.step r.items.decorrelation gap × (place ≤ r.n)
        × (¬ (r.crossings ≡ 0) → r.items.ramp ≤ place) }
    ensures { result ≡ far r place }
{
    if r.crossings == 0 {
        return true;
    }
    gap <= r.n - place
}

// The state after a crossing at sample n, which is x, that is near the largest set's last, and so near the crossing
// just before it: it joins the last group.
fn joining(r: Record, x: Moment) -> Record
    requires { (sound r ≡ true) × (r.items.ramp < r.n) × (counts r ≡ false) }
    ensures { result ≡ crossed r x }
{
    let items = r.items;
    Record {
        items,
        n: r.n + 1,
        last: x,
        crossings: r.crossings + 1,
        largest: r.largest,
        first: r.first,
        last_chosen: r.last_chosen,
        last_crossing: r.n,
        groups: r.groups,
    }
}

// The state after one that is far from it and joins the largest set; it starts a group if it is far from the crossing
// just before it.
fn counted(r: Record, gap: u64, x: Moment) -> Record
    requires { (sound r ≡ true) × (r.items.ramp < r.n) × (counts r ≡ true)
        × Gap r.items.step r.items.decorrelation gap }
    ensures { result ≡ crossed r x }
{
    let items = r.items;
    let g = far(r, gap, r.last_crossing);
    Record {
        items,
        n: r.n + 1,
        last: x,
        crossings: r.crossings + 1,
        largest: r.largest + 1,
        first: truth::pick(r.crossings == 0, r.n, r.first),
        last_chosen: r.n,
        last_crossing: r.n,
        groups: truth::pick(g, r.groups + 1, r.groups),
    }
}

// The state after a crossing at sample n, which is x.
fn crossed(r: Record, gap: u64, x: Moment) -> Record
    requires { (sound r ≡ true) × (r.items.ramp < r.n) × Gap r.items.step r.items.decorrelation gap }
    ensures { result ≡ crossed r x }
{
    if far(r, gap, r.last_chosen) {
        counted(r, gap, x)
    } else {
        joining(r, x)
    }
}

// The state after k more samples without a crossing, of which the last is given.
fn moved(r: Record, k: u64, last: Moment) -> Record
    requires { r.n + k ≤ 20000000 }
    ensures { result ≡ moved r k last }
{
    let items = r.items;
    Record {
        items,
        n: r.n + k,
        last,
        crossings: r.crossings,
        largest: r.largest,
        first: r.first,
        last_chosen: r.last_chosen,
        last_crossing: r.last_crossing,
        groups: r.groups,
    }
}

// Whether sample n - 1 is timed and above in neither channel.
fn below(r: Record) -> bool
    ensures { result ≡ below r }
{
    truth::both(
        r.items.ramp < r.n,
        !sample_channels::above(r.items.levels, r.last),
    )
}

// The state after sample n, which is x, of which it is known whether it crosses a level.
fn step(r: Record, gap: u64, crossing: bool, x: Moment) -> Record
    requires { (sound r ≡ true) × (r.n < most_samples r.items.step r.items.ramp) × (crossing ≡ crosses r x)
        × Gap r.items.step r.items.decorrelation gap }
    ensures { result ≡ stepped r x }
{
    if crossing {
        crossed(r, gap, x)
    } else {
        moved(r, 1, x)
    }
}

// The state after timed samples that are in range and not too many, of which it is known whether they are above.
fn along(r: Record, ups: &[bool], roll: &[i32], acceleration: &[i32]) -> Record
    requires { Fits r roll.now acceleration.now × (r.items.ramp < r.n)
        × (ups.now ≡ map (above r.items.levels) (moments roll.now acceleration.now)) }
    ensures { result ≡ foldl stepped r (moments roll.now acceleration.now) }
{
    let gap = gap_of(r);
    let mut s = r;
    let mut low = below(r);
    for i in 0..roll.len() {
        let x = sample_channels::moment_at(roll, acceleration, i);
        let up = ups[i];
        s = step(s, gap, truth::both(low, up), x);
        low = !up;
    }
    s
}

// The state after timed samples that are in range and not too many: all of them are looked at first, several at once,
// and then stepped one by one.
fn run(r: Record, roll: &[i32], acceleration: &[i32]) -> Record
    requires { Fits r roll.now acceleration.now × (r.items.ramp < r.n) }
    ensures { result ≡ foldl stepped r (moments roll.now acceleration.now) }
{
    let n = roll.len();
    let mut ups = [false; sample_block::BLOCK];
    sample_channels::mark(r.items.levels, roll, acceleration, &mut ups);
    // a slice of just n samples, so that the compiler sees that each place of the roll is one of the acceleration
    along(r, &ups[..n], roll, &acceleration[..n])
}

// How many of k samples no crossing can stand at: those up to the first timed one.
fn leading(r: Record, k: usize) -> usize
    requires { sound r ≡ true }
    ensures { result ≡ min k (r.items.ramp + 1 - r.n) }
{
    if r.items.ramp < r.n {
        return 0;
    }
    let left = r.items.ramp - r.n + 1;
    if left < k as u64 { left as usize } else { k }
}

// The state after a block whose samples are in range and not too many: those of the ramp at once, the others one by
// one.
fn step_all(r: Record, roll: &[i32], acceleration: &[i32]) -> Record
    requires { Fits r roll.now acceleration.now × (0 < length roll.now) }
    ensures { result ≡ foldl stepped r (moments roll.now acceleration.now) }
{
    let lead = leading(r, roll.len());
    if lead == 0 {
        return run(r, roll, acceleration);
    }
    let x = sample_channels::moment_at(roll, acceleration, lead - 1);
    let s = moved(r, lead as u64, x);
    if lead == roll.len() {
        return s;
    }
    run(s, &roll[lead..], &acceleration[lead..])
}

// The same for a block of which it is known whether a sample is above its level. Where none is, no sample of it
// crosses, and only n and the last sample move.
fn advance(r: Record, loud: bool, roll: &[i32], acceleration: &[i32]) -> Record
    requires { Fits r roll.now acceleration.now
        × (loud ≡ any_above r.items.levels roll.now acceleration.now) × (0 < length roll.now) }
    ensures { result ≡ foldl stepped r (moments roll.now acceleration.now) }
{
    if loud {
        return step_all(r, roll, acceleration);
    }
    let k = roll.len();
    moved(
        r,
        k as u64,
        sample_channels::moment_at(roll, acceleration, k - 1),
    )
}

// The answer to a piece that is not taken: a bad sample of it goes before its length.
fn fault(roll: &[i32], acceleration: &[i32]) -> Result<Record, Refusal>
    requires { length roll.now ≡ length acceleration.now }
    ensures { result ≡ cond (any_bad roll.now acceleration.now)
        (Err (bad_sample (first_bad roll.now) (first_bad acceleration.now))) (Err TooLong) }
{
    sample_channels::look_over(roll, acceleration)?;
    Err(Refusal::TooLong)
}

// The answer to a piece that there is room for, block by block. The ends of a block say whether a sample of it is out
// of range, and whether one is above its level: a quiet block is passed over at the speed of `ends_of`.
fn pass(r: Record, roll: &[i32], acceleration: &[i32]) -> Result<Record, Refusal>
    requires { (sound r ≡ true) × (length roll.now ≡ length acceleration.now)
        × (r.n + length roll.now ≤ most_samples r.items.step r.items.ramp) }
    ensures { result ≡ fed r roll.now acceleration.now }
{
    let mut s = r;
    let mut i = 0;
    // By the place of a block, by which both slices are cut: `chunks` of each, zipped, would say no more.
    while i < roll.len() {
        let end = sample_block::end(i, roll.len());
        let rolls = &roll[i..end];
        let accelerations = &acceleration[i..end];
        let e = sample_block::ends_of(rolls);
        let f = sample_block::ends_of(accelerations);
        if sample_channels::outside(e, f) {
            return fault(roll, acceleration);
        }
        s = advance(
            s,
            sample_channels::past(s.items.levels, e, f),
            rolls,
            accelerations,
        );
        i = end;
    }
    Ok(s)
}

// The record after the piece; or refusal 8, then 12, then 2 with the lower bad place in the piece and its channel,
// then 3.
pub fn feed(r: Record, roll: &[i32], acceleration: &[i32]) -> Result<Record, Refusal>
    ensures { result ≡ fed r roll.now acceleration.now }
{
    if !record_state::sound(r) {
        return Err(Refusal::BrokenState);
    }
    if roll.len() != acceleration.len() {
        return Err(Refusal::Unequal);
    }
    let room = sample_items::most_samples(r.items.step, r.items.ramp) - r.n;
    if roll.len() as u64 <= room {
        return pass(r, roll, acceleration);
    }
    fault(roll, acceleration)
}
