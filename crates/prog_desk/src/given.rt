// What a program is started with beside its three standard streams: descriptors 3 and 4, and a standard input that can
// be read twice. std reaches no descriptor by its number, so each is opened once more by the name that Linux gives it
// in /dev/fd. A pipe is then the same pipe; a file is read from where its descriptor stands, and written at its end.
ghost use Rattle.std.specs.Io.{ReadsAtMost};

use crate::Desk;
use std::fs::{self, File, OpenOptions};
use std::io::{self, Read, Seek, SeekFrom, Write};
use std::os::unix::fs::{FileTypeExt, MetadataExt};

// Linux's error for a descriptor that is not open, or not for what is asked of it.
const BAD_DESCRIPTOR: i32 = 9;

// A link in /dev/fd shows by these bits of its mode for what its descriptor is open.
const TO_READ: u32 = 0o400;

const TO_WRITE: u32 = 0o200;

// A descriptor of the start, opened once more; or the error that reading or writing it gives.
#[derive(Drop)]
pub struct Given {
    file: io::Result<File>,
}

impl Given {
    // One that nothing was opened for.
    pub fn nothing() -> Given {
        Given {
            file: Err(bad_descriptor()),
        }
    }

    // The descriptor that `link` leads to, for reading from its place on, which Linux tells in the file of that name.
    pub fn to_read(rt: &HostRuntime, link: &str, place: &str) -> Given {
        let file = open_again(rt, link, TO_READ, OpenOptions::new().read(true));
        if let Ok(file) = &file {
            go_to(file, place_told(rt, place));
        }
        Given { file }
    }

    // The same for writing.
    pub fn to_write(rt: &HostRuntime, link: &str) -> Given {
        Given {
            file: open_again(rt, link, TO_WRITE, OpenOptions::new().append(true)),
        }
    }

    fn file(&self) -> io::Result<&File> {
        self.file.as_ref().map_err(|e| *e)
    }

    pub fn write_all(&self, bytes: &[u8]) -> io::Result<()> {
        write_all_to(self.file()?, bytes)
    }
}

impl Read for &Given {
    fn read(&mut self, buf: &mut [u8]) -> io::Result<usize> {
        read_from(self.file()?, buf)
    }
}

fn read_from(mut file: &File, buf: &mut [u8]) -> io::Result<usize>
    ensures { ReadsAtMost result buf.new }
{
    file.read(buf)
}

// What flows has no place, and stays as it is.
fn go_to(mut file: &File, place: Option<u64>) {
    if let Some(place) = place {
        let _ = file.seek(SeekFrom::Start(place));
    }
}

fn write_all_to(mut file: &File, bytes: &[u8]) -> io::Result<()> {
    file.write_all(bytes)
}

fn bad_descriptor() -> io::Error {
    io::Error::from_raw_os_error(BAD_DESCRIPTOR)
}

// Opens what `link` leads to, if its descriptor is open for that.
fn open_again(rt: &HostRuntime, link: &str, bit: u32, how: &OpenOptions) -> io::Result<File> {
    let metadata = fs::symlink_metadata(rt, link).map_err(|_| bad_descriptor())?;
    if metadata.mode() & bit == 0 {
        return Err(bad_descriptor());
    }
    let held = hold(rt, link);
    let file = how.open(rt, link);
    drop(held);
    file
}

// Both ends of a named pipe: it waits for whoever has the other end where it is opened, also where the other end was
// there and is gone. Held open by both, it lets itself be opened at once.
fn hold(rt: &HostRuntime, link: &str) -> Option<File> {
    if !fs::metadata(rt, link).ok()?.file_type().is_fifo() {
        return None;
    }
    OpenOptions::new()
        .read(true)
        .write(true)
        .open(rt, link)
        .ok()
}

// What stands for the standard streams that are closed: no file may take their numbers. Each is open the other way, so
// that the stream fails as a closed one does.
#[derive(Drop)]
pub struct Closed {
    input: Option<File>,
    output: Option<File>,
    error: Option<File>,
}

impl Closed {
    // A file takes the lowest number that is free, so they come in this order, before all others.
    pub fn filled(rt: &HostRuntime) -> Closed {
        let input = fill_closed(rt, "/dev/fd/0", OpenOptions::new().write(true));
        let output = fill_closed(rt, "/dev/fd/1", OpenOptions::new().read(true));
        let error = fill_closed(rt, "/dev/fd/2", OpenOptions::new().read(true));
        Closed {
            input,
            output,
            error,
        }
    }
}

fn fill_closed(rt: &HostRuntime, link: &str, how: &OpenOptions) -> Option<File> {
    match fs::symlink_metadata(rt, link) {
        Ok(_) => None,
        Err(_) => how.open(rt, "/dev/null").ok(),
    }
}

// What standard input is open on, opened once more, and where in it the input stands.
#[derive(Drop)]
pub struct Again {
    pub file: File,
    pub start: u64,
}

// Standard input a second time, where it can be read twice. What flows is not opened.
pub fn input_again(desk: &Desk) -> Option<Again> {
    let rt = &desk.rt;
    let kind = fs::metadata(rt, "/dev/fd/0").ok()?.file_type();
    if kind.is_fifo() || kind.is_socket() {
        return None;
    }
    let start = place_told(rt, "/proc/self/fdinfo/0")?;
    let mut file = File::open(rt, "/dev/fd/0").ok()?;
    file.seek(SeekFrom::Current(0)).ok()?;
    Some(Again { file, start })
}

// Where a second reading starts, in a file that is open.
#[derive(Clone, Copy)]
pub struct Start<'f> {
    pub file: &'f File,
    pub at: u64,
}

impl<'f> Start<'f> {
    // Where the file stands, if it can be gone back there.
    pub fn here(mut file: &'f File) -> Option<Start<'f>> {
        let at = file.seek(SeekFrom::Current(0)).ok()?;
        Some(Start { file, at })
    }

    pub fn go_back(self) -> io::Result<&'f File> {
        let mut file = self.file;
        file.seek(SeekFrom::Start(self.at))?;
        Ok(file)
    }
}

// Where a descriptor stands, as Linux tells it in the first line of a file: pos, a colon, a tab, the number.
fn place_told(rt: &HostRuntime, name: &str) -> Option<u64> {
    let mut file = File::open(rt, name).ok()?;
    let mut text = [0u8; 64];
    let n = file.read(&mut text).ok()?;
    place_in(&text[..n])
}

const PLACE: &[u8] = b"pos:\t";

fn place_in(text: &[u8]) -> Option<u64> {
    let place = text.strip_prefix(PLACE)?;
    match decimal::leading_at(place, 0) {
        Some((place, _)) => Some(place),
        None => None,
    }
}
