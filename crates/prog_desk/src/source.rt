// A file that is read through lent bytes. A call takes what it can of the bytes that are read and not used yet; those
// that are left go to the front before more is read after them. What is read may be copied on the way through.
use crate::{Broken, Desk, TEMPORARY, fail, fill};
use std::fs::File;
use std::io::{Read, Write};

#[derive(Drop)]
pub struct Source<'t, 'n, R> {
    from: R,
    // What it is called where it cannot be read.
    name: &'n [u8],
    text: &'t mut [u8],
    // The bytes of `text` from `at` up to `end` are read and not used yet.
    at: usize,
    end: usize,
    // Whether more follows.
    pub more: bool,
}

impl<'t, 'n, R: Read> Source<'t, 'n, R> {
    pub fn new(from: R, name: &'n [u8], text: &'t mut [u8]) -> Source<'t, 'n, R> {
        Source {
            from,
            name,
            text,
            at: 0,
            end: 0,
            more: true,
        }
    }

    // What is read and not used yet.
    pub fn unused(&self) -> &[u8] {
        let end = self.end.min(self.text.len());
        &self.text[self.at.min(end)..end]
    }

    // The first `n` of these bytes are used.
    pub fn use_up(&mut self, n: usize) {
        self.at = self.at.wrapping_add(n);
    }

    // Uses the first `n` of these bytes, and answers them.
    pub fn take(&mut self, n: usize) -> &[u8] {
        let at = self.at;
        self.use_up(n);
        let end = self.at.min(self.end).min(self.text.len());
        &self.text[at.min(end)..end]
    }

    // Reads once, after the bytes that are not used yet.
    pub fn refill(&mut self, desk: &Desk) -> Result<(), Broken> {
        self.refill_to(desk, None)
    }

    // The same; what is read goes to `copy` too, where there is one.
    pub fn refill_to(&mut self, desk: &Desk, copy: Option<&File>) -> Result<(), Broken> {
        let end = self.end.min(self.text.len());
        let at = self.at.min(end);
        let kept = end - at;
        text::keep(self.text, at, kept);
        let filled = fill(desk, &mut self.from, self.name, self.text, kept)?;
        copy_to(desk, copy, &self.text[kept..filled])?;
        self.at = 0;
        self.end = filled;
        self.more = kept < filled;
        Ok(())
    }
}

fn copy_to(desk: &Desk, copy: Option<&File>, bytes: &[u8]) -> Result<(), Broken> {
    match copy {
        Some(mut file) => file.write_all(bytes).map_err(|e| fail(desk, TEMPORARY, e)),
        None => Ok(()),
    }
}
