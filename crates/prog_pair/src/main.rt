// The clerk's counter of two channels (document 02, [8]): the comma files of one record, the roll's from standard input
// and the acceleration's from a descriptor of its own, their one line to standard output, with the five items of the
// record as arguments. What the line holds is `comma_pair`'s promise, over both whole files however they come; here
// bytes are only carried.
#![tactic(auto)]

use prog_desk::{Broken, Desk, Ended, Pair};
use sample_items::Items;

// The most bytes that are read at once.
const BYTES: usize = 65_536;

fn count(desk: &Desk, items: Items) -> Result<Ended, Broken> {
    let mut roll = [0u8; BYTES];
    let mut acceleration = [0u8; BYTES];
    let mut from = Pair {
        roll: desk.input(),
        acceleration: desk.second(),
    };
    let start = comma_pair::open(items);
    let w = prog_desk::serve_pair(desk, start, &mut from, &mut roll, &mut acceleration)?;
    let mut out = [0u8; desk_line::LONGEST_LINE];
    let f = comma_pair::finish(w, &mut out);
    prog_desk::answer(desk, &out, f)
}

fn main(rt: HostRuntime) {
    let desk = Desk::with_second(rt);
    let items = prog_desk::items(&desk, 1, prog_desk::item(&desk, 5));
    prog_desk::end(&desk, prog_desk::digit(count(&desk, items)));
}
