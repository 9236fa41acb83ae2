// The board reader: board lines on standard input, one price line printed for each.
#![tactic(auto)]

ghost use Rattle.std.specs.Prelude.{◌*◌, ◌≤◌, ◌≡◌, false, true, length};
ghost use Rattle.board_reader.specs.Turns.{AnsweredBlock, Handed, Sofar, Turns, answers_to, goes_on, nothing_kept, went_by};

use inputs::{Got, Streams};
use line_prices::block::Place;

// What is kept of the line that goes on: its first bytes, and how many they are.
#[derive(Clone, Copy)]
struct PartLine {
    bytes: [u8; 517],
    count: usize,
}

// How a turn went: the input goes on, it has ended, it cannot be read, or the answers cannot be written.
#[derive(Clone, Copy)]
enum Went {
    On,
    Ended,
    Unread,
    Unwritten,
}

// What a turn came to: what is kept then, and how it went.
#[derive(Clone, Copy)]
struct Turn {
    kept: PartLine,
    went: Went,
}

// How it went by whether the write took the answers, and whether the input ends.
fn went_by(written: bool, ends: bool) -> Went
    ensures { result ≡ went_by «written» «ends» }
{
    if !written {
        return Went::Unwritten;
    }
    if ends {
        return Went::Ended;
    }
    Went::On
}

// Hands answers to the write, and tells how that went. What was kept before the block, the block, and whether the input ends say which answers they have to be.
fn print(streams: &mut Streams, answers: &[u8], kept: PartLine, block: &[u8], ends: bool) -> Went
    requires { answers.now ≡ answers_to kept block.now «ends» }
    ensures { Handed «ends» result }
{
    went_by(streams.write_all(answers), ends)
}

// Answers the lines that end in a block, read on from what is kept, and prints the answers.
fn answer_some(streams: &mut Streams, block: &[u8], kept: PartLine, out: &mut [u8]) -> Turn
    requires sofar { Sofar kept }
    requires block_in_bounds { 15 * length block.now ≤ length out.old }
    ensures { AnsweredBlock kept block.now result }
{
    let mut bytes = kept.bytes;
    match line_prices::block::answer_block(block, &mut bytes, kept.count, out) {
        Err(_) => Turn {
            kept,
            went: Went::Unwritten,
        },
        Ok(Place { count, written }) => {
            let went = print(streams, &out[..written], kept, block, false);
            Turn {
                kept: PartLine { bytes, count },
                went,
            }
        }
    }
}

// Reads once, and answers what came at once.
fn read_some(streams: &mut Streams, block: &mut [u8], kept: PartLine, out: &mut [u8]) -> Turn
    requires sofar { Sofar kept }
    requires block_in_bounds { 15 * length block.old ≤ length out.old }
    ensures { Turns kept block.new result }
{
    let got = streams.read(block);
    let error = streams.error();
    let came = inputs::taken(got, error, block);
    match came {
        Got::Bytes(n) => answer_some(streams, &block[..n], kept, out),
        Got::End => Turn {
            kept,
            went: Went::Ended,
        },
        Got::Interrupted => Turn {
            kept,
            went: Went::On,
        },
        Got::Failed => Turn {
            kept,
            went: Went::Unread,
        },
    }
}

// Prints the answer to a line without its line feed, if there is one.
fn print_last(streams: &mut Streams, kept: PartLine, out: &mut [u8]) -> Went
    requires sofar { Sofar kept }
    requires in_bounds { 15 ≤ length out.old }
    ensures { Handed true result }
{
    let bytes = kept.bytes;
    match line_prices::block::answer_end(&bytes, kept.count, out) {
        Err(_) => Went::Unwritten,
        Ok(Place { written, .. }) => print(streams, &out[..written], kept, &[0u8; 0], true),
    }
}

// What is kept before anything has been read.
fn nothing_kept() -> PartLine
    ensures { result ≡ nothing_kept }
{
    PartLine {
        bytes: [0; 517],
        count: 0,
    }
}

// Reads to the end of input, and tells how that went. A proved loop has to end, so it goes up to a number that no run uses up.
fn read_all(streams: &mut Streams, block: &mut [u8], out: &mut [u8]) -> Went
    requires block_in_bounds { 15 * length block.old ≤ length out.old }
    requires in_bounds { 15 ≤ length out.old }
    ensures { goes_on result ≡ false }
{
    let mut turn = Turn {
        kept: nothing_kept(),
        went: Went::On,
    };
    for _ in 0..u64::MAX {
        let kept = turn.kept;
        turn = read_some(streams, block, kept, out);
        match turn.went {
            Went::Unread => {
                return Went::Unread;
            }
            Went::Unwritten => {
                return Went::Unwritten;
            }
            Went::Ended => {
                return print_last(streams, kept, out);
            }
            Went::On => (),
        }
    }
    Went::Unread
}

// Says on standard error what failed, if something did.
fn tell(streams: &Streams, went: Went) {
    match went {
        Went::Unread => streams.tell("board_reader: reading standard input"),
        Went::Unwritten => streams.tell("board_reader: writing standard output"),
        Went::Ended | Went::On => (),
    }
}

// Reads and answers, with the memory that takes.
fn answer_input(streams: &mut Streams) {
    let mut block = [0u8; 4096];
    let mut out = [0u8; 61440];
    let went = read_all(streams, &mut block, &mut out);
    tell(streams, went);
}

fn main(rt: HostRuntime) {
    if inputs::has_arguments(inputs::word_count(&rt)) {
        let _ = rt.stderr().write_all(
            b"usage: board_reader < FILE\nboard lines on standard input, a price line on standard output for each; it takes no arguments\n",
        );
        return;
    }
    answer_input(&mut Streams::new(rt));
}
