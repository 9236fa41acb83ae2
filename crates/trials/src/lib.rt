// What the programs share that run the calls: case lines, answers as numbers, and what is printed.
#![tactic(auto)]

ghost use Rattle.std.specs.Prelude.{◌≤◌, length};

use keys::Key;
use plain::Plain;
use std::env::{Env, FillError};
use std::io::{Print, Read};

pub mod plain; // answers as numbers
pub mod fields; // what a case line says

// Whether the program was started with an argument, which none of them takes: then the text is on standard error.
pub fn usage(rt: HostRuntime, text: &[u8]) -> bool {
    let mut word = [0u8; 1];
    if let Err(FillError::NotPresent) = rt.arg(1, &mut word) {
        return false;
    }
    let _ = rt.stderr().write_all(text);
    true
}

// Writes a run on standard output. What cannot be written is let go: then what was printed is not what is wanted.
pub fn print(rt: HostRuntime, run: &[u8]) {
    let _ = rt.write_all(run);
}

// The same for a number, in decimal digits.
pub fn print_decimal(rt: HostRuntime, n: u64) {
    let _ = print!(rt; "{n}");
}

// Reads standard input until a run is full, the input ends or a read fails, and answers how many bytes stand at its start.
pub fn read_full(rt: HostRuntime, run: &mut [u8]) -> usize
    ensures { result ≤ length run.new }
{
    let mut done = 0;
    // A while: a read takes as many bytes as it will.
    while done < run.len() {
        match rt.stdin().read(&mut run[done..]) {
            Ok(0) | Err(_) => break,
            Ok(count) => done += count,
        }
    }
    done
}

// A space and a number.
pub fn print_number(rt: HostRuntime, n: u64) {
    let _ = print!(rt; " {n}");
}

// Prints a key: its five words and its counter.
pub fn print_key(rt: HostRuntime, key: Key) {
    for n in [key.x, key.y, key.z, key.w, key.v, key.counter] {
        print_number(rt, n as u64);
    }
    print(rt, b"\n");
}

// Prints an answer: its number and its two values, behind a replay's the ending, and after a keyed call's the key.
pub fn print_answer(rt: HostRuntime, answer: Plain) {
    print_number(rt, answer.number);
    print_number(rt, answer.first);
    print_number(rt, answer.second);
    if let Some(ending) = answer.ending {
        print_number(rt, ending);
    }
    print(rt, b"\n");
    if let Some(key) = answer.key {
        print_key(rt, key);
    }
}

// What numbers come to, and what the sums up to each come to, which tells their order.
#[derive(Clone, Copy, Default)]
pub struct Sums {
    pub sum: u64,
    pub sums: u64,
}

impl Sums {
    // The same with a number more.
    pub fn with(self, n: u64) -> Sums {
        let sum = self.sum.wrapping_add(n);
        Sums {
            sum,
            sums: self.sums.wrapping_add(sum),
        }
    }
}

// Prints sums.
pub fn print_sums(rt: HostRuntime, sums: Sums) {
    print_number(rt, sums.sum);
    print_number(rt, sums.sums);
}

// Prints a work area: whole, or the sums of more than 255 numbers, those below 0 as 0.
pub fn print_area(rt: HostRuntime, work: &[i32]) {
    if 255 < work.len() {
        let sums = work
            .iter()
            .fold(Sums::default(), |sums, v| sums.with((*v).max(0) as u64));
        print_sums(rt, sums);
    } else {
        for v in work {
            let _ = print!(rt; " {v}");
        }
    }
    print(rt, b"\n");
}

// Prints a move list: whole, kind and index of each word, or the sums of more than 255 words.
pub fn print_list(rt: HostRuntime, list: &[u32]) {
    if 255 < list.len() {
        let sums = list
            .iter()
            .fold(Sums::default(), |sums, word| sums.with(*word as u64));
        print_sums(rt, sums);
    } else {
        for word in list {
            print_number(rt, (*word / 65536) as u64);
            print_number(rt, (*word % 65536) as u64);
        }
    }
    print(rt, b"\n");
}
