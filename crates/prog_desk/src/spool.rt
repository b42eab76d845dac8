// A temporary file that has no name, for what cannot be read twice.
use crate::{Broken, Desk, TEMPORARY, fail, path, word};
use std::fs::{self, File, OpenOptions};
use std::io::{self, ErrorKind};
use std::os::unix::fs::OpenOptionsExt;
use std::random::RandomSource;

// The most bytes of a temporary file's name.
const NAME: usize = 4096;

// How many random letters the name has at its end, in the place of as many of `FILLER`.
const RANDOM: usize = 6;

const FILLER: u8 = b'X';

// What the letters are: the 10 digits and 52 letters.
const LETTERS: [u8; 62] = *b"0123456789ABCDEFGHIJKLMNOPQRSTUVWXYZabcdefghijklmnopqrstuvwxyz";

// How many names are tried before it is given up: one that is taken is not used.
const TRIES: usize = 1000;

// Linux's error for what is asked for in a wrong way.
const INVALID: i32 = 22;

// Makes a temporary file that has no name, open for reading and writing, where the argument of this number says; its
// words end in XXXXXX. Where it cannot be made, that is said.
pub fn temporary(desk: &Desk, argument: usize) -> Result<File, Broken> {
    let mut buffer = [0u8; NAME];
    let name = word(desk, argument, &mut buffer);
    make(&desk.rt, name).map_err(|e| fail(desk, TEMPORARY, e))
}

fn make(rt: &HostRuntime, name: &mut [u8]) -> io::Result<File> {
    if name.len() < RANDOM || !name.ends_with(&[FILLER; RANDOM]) {
        return Err(io::Error::from_raw_os_error(INVALID));
    }
    for _ in 0..TRIES {
        randomize(rt, name)?;
        match create(rt, name) {
            Err(e) if e.kind() == ErrorKind::AlreadyExists => {}
            made => return made,
        }
    }
    Err(io::Error::from(ErrorKind::AlreadyExists))
}

// Puts random letters at the end of the name.
fn randomize(rt: &HostRuntime, name: &mut [u8]) -> io::Result<()> {
    let mut bytes = [0u8; RANDOM];
    rt.fill_bytes(&mut bytes)?;
    let start = name.len().saturating_sub(RANDOM);
    for (place, b) in name[start..].iter_mut().zip(&bytes) {
        *place = LETTERS[(*b % 62) as usize];
    }
    Ok(())
}

// Creates the file, for nobody else to read or write, and takes its name away.
fn create(rt: &HostRuntime, name: &[u8]) -> io::Result<File> {
    let path = path(name)?;
    let file = OpenOptions::new()
        .read(true)
        .write(true)
        .create_new(true)
        .mode(0o600)
        .open(rt, path)?;
    let _ = fs::remove_file(rt, path);
    Ok(file)
}
