// Document 01, "Numbers a job may carry", with document 02's [8]: the five items that open a record, and how many
// samples it may have.
#![tactic(auto)]

ghost use Rattle.std.specs.Prelude.{◌≡◌};
ghost use Rattle.sample_items.specs.Limits.{within, item_outside, most_in_range};

use sample_channels::Levels;

pub const LONGEST_STEP: u64 = 10_000;

pub const LONGEST_RAMP: u64 = 1_000_000;

pub const HIGHEST_LEVEL: u64 = 1_000_000;

pub const LONGEST_DECORRELATION: u64 = 10_000_000;

pub const LONGEST_TIME: u64 = 10_000_000;

// The items that open a record, by their names: two times in ms cannot change places unseen.
#[derive(Clone, Copy)]
pub struct Items {
    pub step: u64,
    pub ramp: u64,
    pub levels: Levels,
    pub decorrelation: u64,
}

fn between(low: u64, high: u64, x: u64) -> bool
    ensures { result ≡ within low high x }
{
    (low..=high).contains(&x)
}

// The number of the lowest item outside its range, 0 if there is none.
#[tactic(auto, unfolding(crate::specs::Limits::item_outside))]
pub fn item_outside(items: Items) -> u64
    ensures { result ≡ item_outside items }
{
    if !between(1, LONGEST_STEP, items.step) {
        1
    } else if !between(0, LONGEST_RAMP, items.ramp) {
        2
    } else if !between(1, HIGHEST_LEVEL, items.levels.roll) {
        3
    } else if !between(0, LONGEST_DECORRELATION, items.decorrelation) {
        4
    } else if !between(1, HIGHEST_LEVEL, items.levels.acceleration) {
        6
    } else {
        0
    }
}

// The most samples that a record may have, 0 where its step or its ramp is outside its range.
#[tactic(auto, unfolding(crate::specs::Limits::most_in_range))]
pub fn most_samples(step: u64, ramp: u64) -> u64
    ensures { result ≡ most_in_range step ramp }
{
    if between(1, LONGEST_STEP, step) && between(0, LONGEST_RAMP, ramp) {
        ramp + 1 + LONGEST_TIME / step
    } else {
        0
    }
}
