// The clerk's counter of several files of one campaign, for bin/binomial: their names come on a descriptor of their
// own, one after the other, and their one line goes to standard output; the four items are arguments. What the line
// holds is `binomial_files`' promise, over the whole files however they come; here names and bytes are only carried. A
// file has one channel, so that any level in range will do for the other.
#![tactic(auto)]

use binomial_files::Added;
use prog_desk::{Broken, Desk, Ended, Names};
use sample_items::Items;

// The most bytes that are read at once, of a file and of the list of names.
const BYTES: usize = 65_536;

fn said(desk: &Desk, a: Added) -> Result<Ended, Broken> {
    let mut out = [0u8; desk_line::LONGEST_LINE];
    let f = binomial_files::finish(a, &mut out);
    prog_desk::answer(desk, &out, f)
}

// File after file, up to the first that is refused. The turns are counted as in `prog_desk::serve`, by the file's
// number.
fn each(desk: &Desk, items: Items, names: &mut Names, text: &mut [u8]) -> Result<Ended, Broken> {
    let mut added = binomial_files::open(items);
    for file in 1..u64::MAX {
        if binomial_files::is_over(added) {
            return said(desk, added);
        }
        let start = comma_count::open(items);
        let Some(c) = prog_desk::serve_next(desk, start, names, text)? else {
            return said(desk, added);
        };
        prog_desk::show_files(desk, file);
        added = binomial_files::add(file, added, c);
    }
    Err(Broken)
}

fn main(rt: HostRuntime) {
    let desk = Desk::with_second(rt);
    let mut names = [0u8; BYTES];
    let mut text = [0u8; BYTES];
    let items = prog_desk::items(&desk, 1, sample_items::HIGHEST_LEVEL);
    let mut names = Names::new(&desk, &mut names);
    prog_desk::end(
        &desk,
        prog_desk::digit(each(&desk, items, &mut names, &mut text)),
    );
}
