// Runs bad input of every sort through the board reader's calls, in blocks of several sizes, and stored move lines through theirs.
#![tactic(auto)]

mod blocks; // board lines in blocks
mod move_lines; // stored move lines

fn main(rt: HostRuntime) {
    if trials::usage(
        rt,
        b"usage: line_trials < LINES  answers lines of hexadecimal from standard input, then stored lines of its own, and takes no argument\n",
    ) {
        return;
    }
    let mut input = [0u8; 65536];
    let n = trials::read_full(rt, &mut input);
    blocks::run_all(rt, &input[..n]);
    move_lines::read_all(rt);
    move_lines::write_all(rt);
    move_lines::vary_all(rt);
}
