// The clerk's counter of one file: a simulator's comma file from standard input, its one line to standard output, with
// the four items of the record as arguments. What the line holds is `comma_count`'s promise, over the whole file
// however it comes; here bytes are only carried. A file has one channel, so that any level in range will do for the
// other.
#![tactic(auto)]

use prog_desk::{Broken, Desk, Ended};
use sample_items::Items;

// The most bytes that are read at once.
const BYTES: usize = 65_536;

fn count(desk: &Desk, items: Items) -> Result<Ended, Broken> {
    let mut text = [0u8; BYTES];
    let start = comma_count::open(items);
    let mut input = desk.input();
    let c = prog_desk::serve(desk, &mut input, b"standard input", start, &mut text)?;
    let mut out = [0u8; desk_line::LONGEST_LINE];
    let f = comma_count::finish(c, &mut out);
    prog_desk::answer(desk, &out, f)
}

fn main(rt: HostRuntime) {
    let desk = Desk::new(rt);
    let items = prog_desk::items(&desk, 1, sample_items::HIGHEST_LEVEL);
    prog_desk::end(&desk, prog_desk::digit(count(&desk, items)));
}
