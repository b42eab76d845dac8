// The refusals of documents 01 and 02: a case for each of their refusal numbers, with what is returned beside the
// number. An enum and no bare number, so that a refusal cannot be made without the value that belongs to it.
#![tactic(auto)]

ghost use Rattle.std.specs.Prelude.{◌≡◌};
ghost use Rattle.refusal.specs.Numbers.{number_of, value_of, channel_of};

#[derive(Clone, Copy)]
pub enum Refusal {
    // 1: an opening item is outside its range; the lowest such item's number.
    Item(u64),
    // 2: a sample is outside its range; the first such place in the piece. Of two channels it is the roll's.
    Sample(u64),
    // 3: the timed length, or a sheet's exposure, would pass the longest record.
    TooLong,
    // 4: closing or listing before two timed samples; on a sheet, exposure 0.
    TooShort,
    // 5: the campaign has all the records it may have.
    CampaignFull,
    // 6: the campaign has as many failures as the table has rows.
    RowsUsedUp,
    // 7: the lent slice is too short; the number of places needed.
    Room(u64),
    // 8: a state that was handed in breaks a relation.
    BrokenState,
    // 9: a sheet line is malformed; its line number.
    Line(u64),
    // 10: a comma file's line is malformed or has a wrong time; its line number.
    CommaLine(u64),
    // 11: a sum would have more failures or more samples than it may have.
    SumFull,
    // 12: the slices of the two channels have unequal lengths.
    Unequal,
    // 13: a bureau other than 1 or 2.
    NoBureau,
    // 14: the bureau has all the jobs that it may have.
    BureauFull,
    // 15: a place not in the table or not the bureau's own.
    NotItsOwn,
    // 16: a list of peaks is too long, or the tail asked for is not from 2 to its length.
    Tail,
    // 17: a peak is 0 or outside its range; the first such place in the list.
    Peak(u64),
    // 18: no campaign for a loading condition, or more than it may have.
    Situations,
    // 8 again: a design situation's campaign breaks a relation; the lowest such situation's number.
    Situation(u64),
    // 2 again: a sample of the acceleration is outside its range; the first such place in the piece.
    Acceleration(u64),
    // 19: fewer timed samples than peaks in the tail, or more than there may be.
    TimedSamples,
    // 20: a level below the last peak of the tail; that peak.
    LowLevel(u64),
    // 21: a tail without spread.
    NoSpread,
}

// The number of a refusal.
pub fn number(r: Refusal) -> u64
    ensures { result ≡ number_of r }
{
    match r {
        Refusal::Item(_) => 1,
        Refusal::Sample(_) => 2,
        Refusal::TooLong => 3,
        Refusal::TooShort => 4,
        Refusal::CampaignFull => 5,
        Refusal::RowsUsedUp => 6,
        Refusal::Room(_) => 7,
        Refusal::BrokenState => 8,
        Refusal::Line(_) => 9,
        Refusal::CommaLine(_) => 10,
        Refusal::SumFull => 11,
        Refusal::Unequal => 12,
        Refusal::NoBureau => 13,
        Refusal::BureauFull => 14,
        Refusal::NotItsOwn => 15,
        Refusal::Tail => 16,
        Refusal::Peak(_) => 17,
        Refusal::Situations => 18,
        Refusal::Situation(_) => 8,
        Refusal::Acceleration(_) => 2,
        Refusal::TimedSamples => 19,
        Refusal::LowLevel(_) => 20,
        Refusal::NoSpread => 21,
    }
}

// What is returned with the number; 0 where nothing is.
pub fn carried(r: Refusal) -> u64
    ensures { result ≡ value_of r }
{
    match r {
        Refusal::Item(item) => item,
        Refusal::Sample(place) => place,
        Refusal::Room(needed) => needed,
        Refusal::Line(line) => line,
        Refusal::CommaLine(line) => line,
        Refusal::Peak(place) => place,
        Refusal::Situation(number) => number,
        Refusal::Acceleration(place) => place,
        Refusal::LowLevel(peak) => peak,
        _ => 0,
    }
}

// The channel in which a sample is outside its range: 1 for the roll, or the only one, 2 for the acceleration; 0 for
// any other refusal.
pub fn channel(r: Refusal) -> u64
    ensures { result ≡ channel_of r }
{
    match r {
        Refusal::Sample(_) => 1,
        Refusal::Acceleration(_) => 2,
        _ => 0,
    }
}
