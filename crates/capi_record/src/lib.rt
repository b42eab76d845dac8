// A record for C: opening, feeding, ending, the search for the first crossing, listing. Each function that may refuse
// answers 0 or document 01's refusal number and writes what goes with it to `carried`, and the channel that refusal 2
// names to `channel`; a refusal leaves every lent array as it stood. `level` is the roll's, `lateral` the
// acceleration's.
#![tactic(auto)]

ghost use Rattle.std.specs.Prelude.{◌≡◌, length};
ghost use Rattle.sample_channels.specs.Channels.{moments};
ghost use Rattle.crossing_places.specs.Reading.{first_crossing};
ghost use Rattle.capi.specs.Told.{told};
ghost use Rattle.capi_record.specs.Told.{levels_of, items_of, record_ended, record_fed, channel_fed, record_listed};
ghost use Rattle.capi_record.specs.Told.{channel_listed, record_opened};

use sample_channels::Levels;
use sample_items::Items;

// A fresh record in `state`; or refusal 8 for an array of another length, 1 with the lowest item outside its range.
pub fn chim_record_open(
    step: u64,
    ramp: u64,
    level: u64,
    decorrelation: u64,
    lateral: u64,
    state: &mut [u64],
    carried: &mut u64,
) -> u64
    ensures { told result carried.new state.new
        ≡ record_opened (items_of step ramp level decorrelation lateral) state.old }
{
    let items = Items {
        step,
        ramp,
        levels: Levels {
            roll: level,
            acceleration: lateral,
        },
        decorrelation,
    };
    capi::keep_record(record_state::open(items), state, carried)
}

// The record after the piece in `state`; or refusal 8, 12, 2 with the lower bad place in the piece, 3.
pub fn chim_record_feed(
    state: &mut [u64],
    roll: &[i32],
    acceleration: &[i32],
    carried: &mut u64,
    channel: &mut u64,
) -> u64
    ensures state_after { told result carried.new state.new
        ≡ record_fed state.old roll.now acceleration.now }
    ensures channel_after { channel.new
        ≡ channel_fed state.old roll.now acceleration.now }
{
    let r = capi::record_of(state);
    let a = record_feed::feed(r, roll, acceleration);
    *channel = capi::channel_in(a);
    capi::keep_record(a, state, carried)
}

// The result of the record in `state`: crossings, groups, the first failure's place or 0, exposure, largest set; or
// refusal 8, 4. The record stays as it is.
pub fn chim_record_end(state: &[u64], res: &mut [u64], carried: &mut u64) -> u64
    ensures { told result carried.new res.new
        ≡ record_ended state.now res.old }
{
    capi::keep_result(record_end::end(capi::record_of(state)), res, carried)
}

// The place of the first crossing of a whole record; the number of samples that both channels have, which is no
// place, if there is none.
pub fn chim_record_first_crossing(
    roll: &[i32],
    acceleration: &[i32],
    ramp: u64,
    level: u64,
    lateral: u64,
) -> usize
    ensures { result ≡ first_crossing (length (moments roll.now acceleration.now)) ramp
        (levels_of level lateral) (moments roll.now acceleration.now) }
{
    let levels = Levels {
        roll: level,
        acceleration: lateral,
    };
    crossing_search::first_crossing(roll, acceleration, ramp, levels)
}

// The counted times of a whole record, in order, from the start of `times`, and their number; or refusal 1, 12, 2, 3,
// 4, 7 with the places needed.
#[tactic(auto, unfolding(crate::specs::Told::list_told, crate::specs::Told::list_channel))]
pub fn chim_record_list(
    step: u64,
    ramp: u64,
    level: u64,
    decorrelation: u64,
    lateral: u64,
    roll: &[i32],
    acceleration: &[i32],
    times: &mut [u32],
    carried: &mut u64,
    channel: &mut u64,
) -> u64
    ensures times_after { told result carried.new times.new
        ≡ record_listed (items_of step ramp level decorrelation lateral) roll.now
        acceleration.now times.old }
    ensures channel_after { channel.new
        ≡ channel_listed (items_of step ramp level decorrelation lateral) roll.now
        acceleration.now times.old }
{
    let items = Items {
        step,
        ramp,
        levels: Levels {
            roll: level,
            acceleration: lateral,
        },
        decorrelation,
    };
    let a = record_list::list(items, roll, acceleration, times);
    match a {
        Ok(k) => {
            *channel = 0;
            capi::give(k, carried)
        }
        Err(f) => {
            *channel = refusal::channel(f);
            capi::refuse(f, carried)
        }
    }
}
