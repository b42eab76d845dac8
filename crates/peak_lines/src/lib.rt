// Envelope peaks as they are written, a line each: the magnitude in degrees with three decimals, a tab, the time in ms,
// LF; of several files the file's number and a tab first.
#![tactic(auto)]

ghost use Rattle.std.specs.Prelude.{◌≡◌, ◌+◌, ◌*◌, ◌≤◌, length};
ghost use Rattle.text.specs.Write.{written, place_after};
ghost use Rattle.peak_lines.specs.Lines.{file_text, shown_time, peak_line, peak_lines};
ghost use Rattle.peak_lines.specs.Lines.{room_for, lines_place, lines_left};

const TAB: u8 = b'\t';

const LF: u8 = b'\n';

const LATEST: u64 = 10_000_000;

// More bytes than a line has.
pub const LONGEST_LINE: usize = 48;

// A time that is written: no peak stands later than a record may last.
fn moment(time: u32) -> u64
    ensures { result ≡ shown_time time }
{
    truth::pick(time as u64 <= LATEST, time as u64, 0)
}

// Writes the number of a file and a tab, or nothing for 0.
fn put_file(file: u64, out: &mut [u8], at: usize) -> usize
    requires { at ≤ length out.old }
    ensures value { result ≡ place_after out.old at (file_text file) }
    ensures out_after { out.new ≡ written out.old at (file_text file) }
{
    if file == 0 {
        return at;
    }
    decimal::write_field(file, TAB, out, at)
}

fn put_peak(file: u64, size: u32, time: u32, out: &mut [u8], at: usize) -> usize
    requires { at + length (peak_line file size time) ≤ length out.old }
    ensures value { result ≡ place_after out.old at (peak_line file size time) }
    ensures out_after { out.new ≡ written out.old at (peak_line file size time) }
{
    let after_file = put_file(file, out, at);
    let after_size = degrees::write_degrees(degrees::sample(false, size as u64), out, after_file);
    let after_tab = text::write_byte(TAB, out, after_size);
    decimal::write_field(moment(time), LF, out, after_tab)
}

fn put_peaks(file: u64, sizes: &[u32], times: &[u32], out: &mut [u8], from: usize) -> usize
    requires { (length sizes.now ≡ length times.now)
        × (from + length (peak_lines file sizes.now times.now) ≤ length out.old) }
    ensures value { result
        ≡ place_after out.old from (peak_lines file sizes.now times.now) }
    ensures out_after { out.new
        ≡ written out.old from (peak_lines file sizes.now times.now) }
{
    let mut at = from;
    for (size, time) in sizes.iter().zip(times) {
        at = put_peak(file, *size, *time, out, at);
    }
    at
}

// Whether so many lines have room from `at` on.
fn room_for(lines: usize, len: usize, at: usize) -> bool
    ensures { result ≡ room_for lines len at }
{
    if len < at {
        return false;
    }
    lines <= (len - at) / LONGEST_LINE
}

// Writes the peaks' lines into `out` from `at` on and answers the place after them; `file` is the number of their file,
// 0 for a file alone. Where there is no room for the longest line of each peak, or the slices differ in length, nothing
// is written, and `at` is answered.
pub fn write(file: u64, sizes: &[u32], times: &[u32], out: &mut [u8], at: usize) -> usize
    ensures value { result ≡ lines_place file sizes.now times.now out.old at }
    ensures out_after { out.new
        ≡ lines_left file sizes.now times.now out.old at }
{
    if sizes.len() != times.len() {
        return at;
    }
    if !room_for(sizes.len(), out.len(), at) {
        return at;
    }
    put_peaks(file, sizes, times, out, at)
}
