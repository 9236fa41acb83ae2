// What reads of standard input come to, and the beginning of an input, read until it decides.
#![tactic(auto)]

ghost use Rattle.std.specs.Prelude.{◌+◌, ◌≤◌, ◌≡◌, false, ltb, length, take};
ghost use Rattle.game.specs.Lists.{has};
ghost use Rattle.inputs.specs.Beginnings.{Begun, ReadOn, line_ends, room_for, standing_by, standing_of};
ghost use Rattle.inputs.specs.Reads.{bytes_in, failed_by, got_of};

use std::env::{Env, FillError};
use std::io;
use std::io::{Print, Read};

// What a read came to: so many bytes, the end of input, an interruption, or a failure.
#[derive(Clone, Copy, Debug, PartialEq, Eq)]
pub enum Got {
    Bytes(usize),
    End,
    Interrupted,
    Failed,
}

// A read of the input failed.
#[derive(Clone, Copy, Debug, PartialEq, Eq)]
pub struct Unread;

// How it stands after a read: so many bytes stand and more are wanted, so many are the beginning, or it cannot be read.
#[derive(Clone, Copy, Debug, PartialEq, Eq)]
pub enum Standing {
    More(usize),
    All(usize),
    Unread,
}

// Standard input and output, and why the last call failed that did.
#[derive(Clone, Copy)]
pub struct Streams {
    rt: HostRuntime,
    failure: Option<io::Error>,
}

impl Streams {
    // Those of a program.
    pub fn new(rt: HostRuntime) -> Streams {
        Streams { rt, failure: None }
    }

    // Reads standard input into a block, and answers how many bytes came; -1 where that failed, with `error` as errno.
    // Two numbers, and no Result: what a read came to, `got_of`, is said of these two, and its meaning stays.
    pub fn read(&mut self, block: &mut [u8]) -> isize {
        match self.rt.stdin().read(block) {
            Ok(count) => count.min(isize::MAX as usize) as isize,
            Err(error) => {
                self.failure = Some(error);
                -1
            }
        }
    }

    // Writes all of a run on standard output, and answers whether that was done.
    pub fn write_all(&mut self, run: &[u8]) -> bool {
        match self.rt.write_all(run) {
            Ok(()) => true,
            Err(error) => {
                self.failure = Some(error);
                false
            }
        }
    }

    // The number of the last failure, as errno; 0 where the system gave none.
    pub fn error(&self) -> i32 {
        match self.failure {
            Some(error) => match error.raw_os_error() {
                Some(number) => number,
                None => 0,
            },
            None => 0,
        }
    }

    // Says on standard error what failed, and why.
    pub fn tell(&self, what: &str) {
        let said = match self.failure {
            Some(error) => eprintln!(self.rt; "{what}: {error}"),
            None => eprintln!(self.rt; "{what}"),
        };
        // Where standard error cannot be written either, there is nobody to tell.
        let _ = said;
    }
}

// How many words a program was started with, its own name first; more than two count as two.
pub fn word_count(rt: &impl Env) -> usize
    ensures { result ≤ 2 }
{
    let mut word = [0u8; 1];
    match rt.arg(1, &mut word) {
        Err(FillError::NotPresent) => 1,
        _ => 2,
    }
}

// Whether a program was started with more than its own name.
pub fn has_arguments(count: usize) -> bool
    ensures { result ≡ ltb 1 count }
{
    1 < count
}

// errno of a call that was interrupted: EINTR.
const INTERRUPTED: i32 = 4;

// What a read that failed came to, with `error` as errno.
fn failed(error: i32) -> Got
    ensures { result ≡ failed_by error }
{
    if error == INTERRUPTED {
        return Got::Interrupted;
    }
    Got::Failed
}

// What a read into a block came to that answered `got`, with `error` as errno.
pub fn taken(got: isize, error: i32, block: &[u8]) -> Got
    ensures { result ≡ got_of got error (length block.now) }
{
    if got < 0 {
        return failed(error);
    }
    let count = (got as usize).min(block.len());
    if count == 0 {
        return Got::End;
    }
    Got::Bytes(count)
}

// Where one read ends that begins behind the first `count` bytes of a run: 512 bytes further on, or at the run's end.
fn end_of(count: usize, length: usize) -> usize
    requires { count ≤ length }
    ensures { result ≡ count + room_for count length }
{
    if length - count < 512 {
        return length;
    }
    count + 512
}

// Reads once, behind the first `count` bytes of a run.
fn read_some(streams: &mut Streams, held: &mut [u8], count: usize) -> Got
    requires { count ≤ length held.old }
    ensures { ReadOn count held.old held.new result }
{
    let end = end_of(count, held.len());
    let part = &mut held[count..end];
    let got = streams.read(part);
    let error = streams.error();
    taken(got, error, part)
}

// Whether a line feed is among bytes.
fn has_end(bytes: &[u8]) -> bool
    ensures { result ≡ has 10 bytes.now }
{
    bytes.contains(&10)
}

// How it stands with `more` bytes behind the first `count`: only these are looked at for a line feed.
fn standing_by(held: &[u8], count: usize, more: usize, line: bool) -> Standing
    requires more_in_bounds { count + more ≤ length held.now }
    requires held_value { line_ends «line» (take count held.now) ≡ false }
    ensures { result ≡ standing_by «line» held.now (count + more) }
{
    let total = count + more;
    if total == held.len() {
        return Standing::All(total);
    }
    if !line {
        return Standing::More(total);
    }
    if has_end(&held[count..total]) {
        return Standing::All(total);
    }
    Standing::More(total)
}

// How it stands after a read behind the first `count` bytes. An interrupted read is tried again.
fn standing_of(held: &[u8], count: usize, came: Got, line: bool) -> Standing
    requires came_in_bounds { count + bytes_in came ≤ length held.now }
    requires held_value { line_ends «line» (take count held.now) ≡ false }
    ensures { result ≡ standing_of «line» held.now count came }
{
    match came {
        Got::Bytes(more) => standing_by(held, count, more, line),
        Got::End => Standing::All(count),
        Got::Interrupted => Standing::More(count),
        Got::Failed => Standing::Unread,
    }
}

// Reads standard input into a lent run, at most 512 bytes at a time, until the run is full, the input has ended or, where `line` says so, a line feed has come; answers how many bytes stand at its start. A proved loop has to end, so it goes up to a number that no run uses up.
pub fn read_beginning(streams: &mut Streams, held: &mut [u8], line: bool) -> Result<usize, Unread>
    ensures { Begun «line» held.new result }
{
    let mut count = 0;
    for _ in 0..u64::MAX {
        let came = read_some(streams, held, count);
        match standing_of(held, count, came, line) {
            Standing::All(n) => {
                return Ok(n);
            }
            Standing::Unread => {
                return Err(Unread);
            }
            Standing::More(n) => {
                count = n;
            }
        }
    }
    Err(Unread)
}
