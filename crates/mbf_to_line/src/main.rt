// The filter mbf_to_line: a board file on standard input, its board line printed.
#![tactic(auto)]

ghost use Rattle.std.specs.Prelude.{◌≡◌, false};
ghost use Rattle.inputs.specs.Beginnings.{Begun, bytes_read};
ghost use Rattle.mbf_lines.specs.Conversions.{file_line};

use inputs::{Streams, Unread};

// Hands a line to the write. The bytes that were read say which line it has to be.
fn print(streams: &mut Streams, line: &[u8], held: &[u8], began: Result<usize, Unread>)
    requires { line.now ≡ file_line (bytes_read held.now began) }
{
    if !streams.write_all(line) {
        streams.tell("mbf_to_line: writing standard output");
    }
}

// Prints the line of the file that was read.
fn answer(streams: &mut Streams, held: &[u8], began: Result<usize, Unread>)
    requires { Begun false held.now began }
{
    match began {
        Err(Unread) => streams.tell("mbf_to_line: reading standard input"),
        Ok(count) => {
            let mut out = [0u8; 517];
            let written = mbf_lines::line_of_file(&held[..count], &mut out);
            print(streams, &out[..written], held, began);
        }
    }
}

// Reads and answers, with the memory that takes: past 4,101 bytes no byte decides.
fn answer_input(streams: &mut Streams) {
    let mut held = [0u8; 4101];
    let began = inputs::read_beginning(streams, &mut held, false);
    answer(streams, &held, began);
}

fn main(rt: HostRuntime) {
    if inputs::has_arguments(inputs::word_count(&rt)) {
        let _ = rt.stderr().write_all(
            b"usage: mbf_to_line < FILE\na board file on standard input, its board line on standard output; it takes no arguments\n",
        );
        return;
    }
    answer_input(&mut Streams::new(rt));
}
