// The functions of `capi_bureau`, exported.

ghost use Rattle.std.specs.Prelude.{◌≡◌};
ghost use Rattle.bureau_table.specs.Calls.{called};
ghost use Rattle.bureau_table.specs.declared.Ask.TheVariants.{On, Take};
ghost use Rattle.bureau_table.specs.declared.Work.TheVariants.{Enter, GiveBack, Judge, Rate};
ghost use Rattle.capi_verdict.specs.Told.{count, judgement, rates, ratings};
ghost use Rattle.capi_bureau.specs.Rows.{outcome_of, places_of, rows_left};
ghost use Rattle.capi_bureau.specs.Told.{judged, plain, rated};

// A job at this standard for the bureau; its place in `carried`. Refusals 8, 13, 14, 1 with item 5.
#[unsafe(no_mangle)]
pub extern "C" fn chim_bench_take(
    table: &mut [[u64; 6]],
    bureau: u64,
    standard: u64,
    carried: &mut u64,
) -> u64
    ensures { (count result carried.new
        ≡ plain (called (places_of table.old) bureau (Take standard)).answer)
        × (table.new
        ≡ rows_left table.old (called (places_of table.old) bureau (Take standard)).table) }
{
    capi_bureau::chim_bench_take(table, bureau, standard, carried)
}

// A result entered into the campaign in the bureau's place: whether there is a first failure (1) or not (0), and the
// exposure. Refusals 8, 13, 15, 8 for the result, 5, 6.
#[unsafe(no_mangle)]
pub extern "C" fn chim_bench_enter(
    table: &mut [[u64; 6]],
    bureau: u64,
    place: u64,
    failed: u64,
    exposure: u64,
    carried: &mut u64,
) -> u64
    ensures { (count result carried.new
        ≡ plain (called (places_of table.old) bureau (On place (Enter (outcome_of failed exposure)))
        ).answer)
        × (table.new
        ≡ rows_left table.old
        (called (places_of table.old) bureau (On place (Enter (outcome_of failed exposure)))).table) }
{
    capi_bureau::chim_bench_enter(table, bureau, place, failed, exposure, carried)
}

// The bureau's place is free again. Refusals 8, 13, 15.
#[unsafe(no_mangle)]
pub extern "C" fn chim_bench_give_back(
    table: &mut [[u64; 6]],
    bureau: u64,
    place: u64,
    carried: &mut u64,
) -> u64
    ensures { (count result carried.new
        ≡ plain (called (places_of table.old) bureau (On place GiveBack)).answer)
        × (table.new
        ≡ rows_left table.old (called (places_of table.old) bureau (On place GiveBack)).table) }
{
    capi_bureau::chim_bench_give_back(table, bureau, place, carried)
}

// The verdict of the campaign in the bureau's place, told as chim_campaign_verdict tells it. Refusals 8, 13, 15.
#[unsafe(no_mangle)]
pub extern "C" fn chim_bench_verdict(
    table: &mut [[u64; 6]],
    bureau: u64,
    place: u64,
    lower: &mut f64,
    upper: &mut f64,
    carried: &mut u64,
) -> u64
    ensures { (judgement result carried.new lower.new upper.new
        ≡ judged (called (places_of table.old) bureau (On place Judge)).answer lower.old
        upper.old)
        × (table.new
        ≡ rows_left table.old (called (places_of table.old) bureau (On place Judge)).table) }
{
    capi_bureau::chim_bench_verdict(table, bureau, place, lower, upper, carried)
}

// The rates of the campaign in the bureau's place, told as chim_campaign_rates tells them. Refusals 8, 13, 15.
#[unsafe(no_mangle)]
pub extern "C" fn chim_bench_rates(
    table: &mut [[u64; 6]],
    bureau: u64,
    place: u64,
    estimate: &mut f64,
    lower: &mut f64,
    upper: &mut f64,
    carried: &mut u64,
) -> u64
    ensures { (ratings result carried.new
        (rates estimate.new lower.new upper.new)
        ≡ rated (called (places_of table.old) bureau (On place Rate)).answer
        (rates estimate.old lower.old upper.old))
        × (table.new
        ≡ rows_left table.old (called (places_of table.old) bureau (On place Rate)).table) }
{
    capi_bureau::chim_bench_rates(table, bureau, place, estimate, lower, upper, carried)
}
