// The functions of `capi_campaign`, exported.

ghost use Rattle.std.specs.Prelude.{◌≡◌};
ghost use Rattle.capi.specs.Told.{told};
ghost use Rattle.capi_campaign.specs.Told.{campaign_entered, campaign_opened, campaign_result_entered};

// A campaign without a record in `state`; or refusal 8 for an array of another length, 1 with item 5.
#[unsafe(no_mangle)]
pub extern "C" fn chim_campaign_open(standard: u64, state: &mut [u64], carried: &mut u64) -> u64
    ensures { told result carried.new state.new ≡ campaign_opened standard state.old }
{
    capi_campaign::chim_campaign_open(standard, state, carried)
}

// The campaign in `state` with a result entered: whether there is a first failure (1) or not (0), and the exposure;
// or refusal 8, for another flag or an exposure that is not from 1 to 10,000,000 too, 5, 6.
#[unsafe(no_mangle)]
pub extern "C" fn chim_campaign_enter(
    state: &mut [u64],
    failed: u64,
    exposure: u64,
    carried: &mut u64,
) -> u64
    ensures { told result carried.new state.new
        ≡ campaign_entered state.old failed exposure }
{
    capi_campaign::chim_campaign_enter(state, failed, exposure, carried)
}

// The campaign in `state` with the result in `result` entered, of which only the first failure and the exposure are
// read; or refusal 8, for an array of another length or an exposure that is not from 1 to 10,000,000 too, 5, 6.
#[unsafe(no_mangle)]
pub extern "C" fn chim_campaign_enter_result(
    state: &mut [u64],
    res: &[u64],
    carried: &mut u64,
) -> u64
    ensures { told result carried.new state.new
        ≡ campaign_result_entered state.old res.now }
{
    capi_campaign::chim_campaign_enter_result(state, res, carried)
}
