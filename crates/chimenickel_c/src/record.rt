// The functions of `capi_record`, exported.

ghost use Rattle.std.specs.Prelude.{◌≡◌, length};
ghost use Rattle.sample_channels.specs.Channels.{moments};
ghost use Rattle.crossing_places.specs.Reading.{first_crossing};
ghost use Rattle.capi.specs.Told.{told};
ghost use Rattle.capi_record.specs.Told.{levels_of, items_of, record_ended, record_fed, channel_fed, record_listed};
ghost use Rattle.capi_record.specs.Told.{channel_listed, record_opened};

// A fresh record in `state`; or refusal 8 for an array of another length, 1 with the lowest item outside its range.
#[unsafe(no_mangle)]
pub extern "C" fn chim_record_open(
    step: u64,
    ramp: u64,
    level: u64,
    decorrelation: u64,
    lateral: u64,
    state: &mut [u64],
    carried: &mut u64,
) -> u64
    ensures { told result carried.new state.new
        ≡ record_opened (items_of step ramp level decorrelation lateral) state.old }
{
    capi_record::chim_record_open(step, ramp, level, decorrelation, lateral, state, carried)
}

// The record after the piece in `state`; or refusal 8, 12, 2 with the lower bad place in the piece, 3.
#[unsafe(no_mangle)]
pub extern "C" fn chim_record_feed(
    state: &mut [u64],
    roll: &[i32],
    acceleration: &[i32],
    carried: &mut u64,
    channel: &mut u64,
) -> u64
    ensures state_after { told result carried.new state.new
        ≡ record_fed state.old roll.now acceleration.now }
    ensures channel_after { channel.new
        ≡ channel_fed state.old roll.now acceleration.now }
{
    capi_record::chim_record_feed(state, roll, acceleration, carried, channel)
}

// The result of the record in `state`: crossings, groups, the first failure's place or 0, exposure, largest set; or
// refusal 8, 4. The record stays as it is.
#[unsafe(no_mangle)]
pub extern "C" fn chim_record_end(state: &[u64], res: &mut [u64], carried: &mut u64) -> u64
    ensures { told result carried.new res.new
        ≡ record_ended state.now res.old }
{
    capi_record::chim_record_end(state, res, carried)
}

// The place of the first crossing of a whole record; the number of samples that both channels have, which is no
// place, if there is none.
#[unsafe(no_mangle)]
pub extern "C" fn chim_record_first_crossing(
    roll: &[i32],
    acceleration: &[i32],
    ramp: u64,
    level: u64,
    lateral: u64,
) -> usize
    ensures { result ≡ first_crossing (length (moments roll.now acceleration.now)) ramp
        (levels_of level lateral) (moments roll.now acceleration.now) }
{
    capi_record::chim_record_first_crossing(roll, acceleration, ramp, level, lateral)
}

// The counted times of a whole record, in order, from the start of `times`, and their number; or refusal 1, 12, 2, 3,
// 4, 7 with the places needed.
#[unsafe(no_mangle)]
pub extern "C" fn chim_record_list(
    step: u64,
    ramp: u64,
    level: u64,
    decorrelation: u64,
    lateral: u64,
    roll: &[i32],
    acceleration: &[i32],
    times: &mut [u32],
    carried: &mut u64,
    channel: &mut u64,
) -> u64
    ensures times_after { told result carried.new times.new
        ≡ record_listed (items_of step ramp level decorrelation lateral) roll.now
        acceleration.now times.old }
    ensures channel_after { channel.new
        ≡ channel_listed (items_of step ramp level decorrelation lateral) roll.now
        acceleration.now times.old }
{
    capi_record::chim_record_list(
        step,
        ramp,
        level,
        decorrelation,
        lateral,
        roll,
        acceleration,
        times,
        carried,
        channel,
    )
}
