// The filter line_to_mbf: a board line on standard input, its board file written.
#![tactic(auto)]

ghost use Rattle.std.specs.Prelude.{◌≡◌, true};
ghost use Rattle.inputs.specs.Beginnings.{Begun, bytes_read};
ghost use Rattle.mbf_lines.specs.Conversions.{line_file};

use inputs::{Streams, Unread};

// Hands a file to the write. The bytes that were read say which file it has to be.
fn print(streams: &mut Streams, file: &[u8], held: &[u8], began: Result<usize, Unread>)
    requires { file.now ≡ line_file (bytes_read held.now began) }
{
    if !streams.write_all(file) {
        streams.tell("line_to_mbf: writing standard output");
    }
}

// Writes the file of the line that was read.
fn answer(streams: &mut Streams, held: &[u8], began: Result<usize, Unread>)
    requires { Begun true held.now began }
{
    match began {
        Err(Unread) => streams.tell("line_to_mbf: reading standard input"),
        Ok(count) => {
            let mut out = [0u8; 4100];
            let written = mbf_lines::file_of_line(&held[..count], &mut out);
            print(streams, &out[..written], held, began);
        }
    }
}

// Reads and answers, with the memory that takes: past 517 bytes no byte decides.
fn answer_input(streams: &mut Streams) {
    let mut held = [0u8; 517];
    let began = inputs::read_beginning(streams, &mut held, true);
    answer(streams, &held, began);
}

fn main(rt: HostRuntime) {
    if inputs::has_arguments(inputs::word_count(&rt)) {
        let _ = rt.stderr().write_all(
            b"usage: line_to_mbf < FILE\na board line on standard input, its board file on standard output; it takes no arguments\n",
        );
        return;
    }
    answer_input(&mut Streams::new(rt));
}
