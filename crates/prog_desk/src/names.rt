// The list of the files' names, as the second descriptor gives it: one after the other, each ended by a 0 byte.
use crate::source::Source;
use crate::{Broken, Desk, Given, warn};

const NAME_END: u8 = b'\0';

#[derive(Drop)]
pub struct Names<'t, 'a> {
    list: Source<'t, 'a, &'a Given>,
}

impl<'t, 'a> Names<'t, 'a> {
    // The list, read through `text`.
    pub fn new(desk: &'a Desk, text: &'t mut [u8]) -> Names<'t, 'a> {
        Names {
            list: Source::new(desk.second(), b"the list of files", text),
        }
    }

    // The next name; none where the list is over. The turns are counted as in `serve`.
    pub fn next(&mut self, desk: &Desk) -> Result<Option<&[u8]>, Broken> {
        for _ in 0..u64::MAX {
            let unused = self.list.unused();
            if let Some(n) = unused.iter().position(|b| *b == NAME_END) {
                return Ok(self.list.take(n + 1).strip_suffix(&[NAME_END]));
            }
            self.list.refill(desk)?;
            if self.list.more {
                continue;
            }
            if self.list.unused().is_empty() {
                return Ok(None);
            }
            warn(
                desk,
                b"the list of files: a name of more than 4,095 bytes\n",
            );
            return Err(Broken);
        }
        Err(Broken)
    }
}
