// A record: two channels of samples at a fixed step, roll and acceleration, with a level each, a ramp and a
// decorrelation time; what is kept of it between two pieces, and its opening. A state goes in by value and comes back
// in an answer, so a refusal leaves the caller's as it stood.
#![tactic(auto)]

ghost use Rattle.std.specs.Prelude.{◌≡◌, [], ◌-◌};
ghost use Rattle.sample_channels.specs.Channels.{in_range};
ghost use Rattle.record_state.specs.State.{state_of, is_still, last_kept, none_kept, no_groups, failure_kept};
ghost use Rattle.record_state.specs.State.{groups_kept, figures_kept, sound};
ghost use Rattle.record_state.specs.Answers.{opened};

use refusal::Refusal;
use sample_channels::Moment;
use sample_items::Items;

// The items, how many samples came and the last of both channels, and the figures so far: the crossings, the largest
// set of them, the groups. `first`, `last_chosen` and `last_crossing` are places of samples, those of the first
// crossing, of the largest set's last and of the last crossing; places without a meaning yet hold 0.
#[derive(Clone, Copy)]
pub struct Record {
    pub items: Items,
    pub n: u64,
    pub last: Moment,
    pub crossings: u64,
    pub largest: u64,
    pub first: u64,
    pub last_chosen: u64,
    pub last_crossing: u64,
    pub groups: u64,
}

// The state of no samples.
fn fresh(items: Items) -> Record
    ensures { result ≡ state_of items [] }
{
    Record {
        items,
        n: 0,
        last: Moment {
            roll: 0,
            acceleration: 0,
        },
        crossings: 0,
        largest: 0,
        first: 0,
        last_chosen: 0,
        last_crossing: 0,
        groups: 0,
    }
}

// The fresh record, or refusal 1 with the lowest item outside its range.
pub fn open(items: Items) -> Result<Record, Refusal>
    ensures { result ≡ opened items }
{
    let item = sample_items::item_outside(items);
    if item == 0 {
        Ok(fresh(items))
    } else {
        Err(Refusal::Item(item))
    }
}

// n - 1 - ramp, and 0 where there is no such number.
fn spans(ramp: u64, n: u64) -> u64
    ensures { result ≡ n - 1 - ramp }
{
    if ramp < n { n - 1 - ramp } else { 0 }
}

// Whether a sample is in range in both channels.
fn both_in_range(x: Moment) -> bool
    ensures { result ≡ in_range x }
{
    truth::both(
        sample_range::in_range(x.roll),
        sample_range::in_range(x.acceleration),
    )
}

// Whether it is 0 in both.
fn both_zero(x: Moment) -> bool
    ensures { result ≡ is_still x }
{
    truth::both(
        sample_size::magnitude(x.roll) == 0,
        sample_size::magnitude(x.acceleration) == 0,
    )
}

fn last_kept(r: Record) -> bool
    ensures { result ≡ last_kept r }
{
    truth::both(
        both_in_range(r.last),
        truth::either(r.n != 0, both_zero(r.last)),
    )
}

fn failure_kept(r: Record) -> bool
    ensures { result ≡ failure_kept r }
{
    truth::both(
        1 <= r.largest,
        truth::both(
            r.crossings <= spans(r.items.ramp, r.n),
            truth::both(
                r.items.ramp < r.first,
                truth::both(r.first <= r.last_chosen, r.last_chosen < r.n),
            ),
        ),
    )
}

fn none_kept(r: Record) -> bool
    ensures { result ≡ none_kept r }
{
    truth::both(
        r.crossings == 0,
        truth::both(r.largest == 0, r.last_chosen == 0),
    )
}

fn groups_kept(r: Record) -> bool
    ensures { result ≡ groups_kept r }
{
    truth::both(
        r.last_chosen <= r.last_crossing,
        truth::both(
            r.last_crossing < r.n,
            truth::both(1 <= r.groups, r.groups <= r.largest),
        ),
    )
}

fn no_groups(r: Record) -> bool
    ensures { result ≡ no_groups r }
{
    truth::both(r.last_crossing == 0, r.groups == 0)
}

fn figures_kept(r: Record) -> bool
    ensures { result ≡ figures_kept r }
{
    if r.first == 0 {
        truth::both(none_kept(r), no_groups(r))
    } else {
        truth::both(failure_kept(r), groups_kept(r))
    }
}

// Whether a state keeps the relations for refusal 8.
pub fn sound(r: Record) -> bool
    ensures { result ≡ sound r }
{
    if sample_items::item_outside(r.items) != 0 {
        return false;
    }
    truth::both(
        last_kept(r),
        truth::both(
            r.n <= sample_items::most_samples(r.items.step, r.items.ramp),
            truth::both(r.largest <= r.crossings, figures_kept(r)),
        ),
    )
}
