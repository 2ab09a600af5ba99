// The lines of a sheet, put into a lent buffer.
ghost use Rattle.std.specs.Prelude.{◌≡◌, ◌+◌, ◌^◌, ◌<◌, ◌≤◌, length, take, slice_index};
ghost use Rattle.sheets.specs.Lines.{decimal, spaced, count_line, lines_by, more_line, long_line};
ghost use Rattle.sheets.specs.Printed.{PutsFew, files_of, all_lines, Prints};

use super::Counts;

// Puts a number in decimal digits.
fn put_number(out: &mut [u8], n: usize, x: u32) -> usize
    requires { n < 2 ^ 40 }
    ensures { PutsFew 10 (decimal x) n out.old out.new result }
{
    let mut digits = [0u8; 20];
    // `as` and not `u64::from`, over which the proof does not close.
    let k = io::decimal(x as u64, &mut digits);
    answers::put::put_bytes(out, n, &digits[..k])
}

// Puts a space and a number.
#[tactic(auto, using(crate::proofs::Lining::parts))]
fn put_spaced(out: &mut [u8], n: usize, x: u32) -> usize
    requires { n + 1 < 2 ^ 40 }
    ensures { PutsFew 11 (spaced x) n out.old out.new result }
{
    let m = tables::put_byte(out, n, b' ');
    put_number(out, m, x)
}

// Puts a letter, a number and its count; nothing where that is 0.
fn put_line(out: &mut [u8], n: usize, letter: u8, number: u32, count: u32) -> usize
    requires { n + 64 < 2 ^ 40 }
    ensures { PutsFew 24 (count_line letter number count) n out.old out.new result }
{
    if count == 0 {
        return n;
    }
    let a = tables::put_byte(out, n, letter);
    let b = put_spaced(out, a, number);
    let c = put_spaced(out, b, count);
    tables::put_byte(out, c, b'\n')
}

// Puts the lines of 32 numbers, whose counts these are.
fn put_lines(out: &mut [u8], n: usize, letter: u8, table: &[u32; 32]) -> usize
    requires { n + 4096 < 2 ^ 40 }
    ensures { PutsFew 768 (lines_by letter (slice_index table.now)) n out.old out.new result }
{
    let mut m = n;
    for (k, &c) in table.iter().enumerate() {
        m = put_line(out, m, letter, k as u32, c);
    }
    m
}

// Puts the line of the files.
fn put_files(out: &mut [u8], counts: &Counts) -> usize
    ensures { PutsFew 33 (files_of counts.now) 0 out.old out.new result }
{
    let a = put_number(out, 0, counts.accepted);
    let b = put_spaced(out, a, counts.refused);
    let c = put_spaced(out, b, counts.unreadable);
    tables::put_byte(out, c, b'\n')
}

// Puts a last line where there are more names.
fn put_more(out: &mut [u8], n: usize, more: bool) -> usize
    requires { n + 8 < 2 ^ 40 }
    ensures { PutsFew 5 (more_line more) n out.old out.new result }
{
    if more {
        answers::put::put_bytes(out, n, b"more\n")
    } else {
        n
    }
}

// Puts the lines by number, kind and reason.
#[tactic(auto, using(crate::proofs::Lining::puts_all))]
fn put_all_lines(out: &mut [u8], n: usize, counts: &Counts) -> usize
    requires { n + 8192 < 2 ^ 40 }
    ensures { PutsFew 2304 (all_lines counts.now) n out.old out.new result }
{
    let a = put_lines(out, n, b'r', &counts.numbers);
    let b = put_lines(out, a, b'k', &counts.kinds);
    put_lines(out, b, b'w', &counts.reasons)
}

// Puts the lines of a sheet whose counts these are.
pub fn put_sheet(out: &mut [u8], counts: &Counts, more: bool) -> usize
    requires room { 8192 ≤ length out.old }
    ensures { Prints counts.now more out.new result }
{
    let a = put_files(out, counts);
    let b = put_all_lines(out, a, counts);
    put_more(out, b, more)
}

// Puts the only line where a list of names is over-long.
#[tactic(auto, using(crate::proofs::Lining::over_long))]
pub fn put_long(out: &mut [u8]) -> usize
    requires { 8192 ≤ length out.old }
    ensures { take result out.new ≡ long_line }
{
    answers::put::put_bytes(out, 0, b"refused 2 262144\n")
}
