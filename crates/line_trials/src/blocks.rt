// Board lines answered in blocks of one size or another: the answers, or their count and a sum of them.
use line_prices::block::Place;
use refusals::Refusal;

// What is kept of the line that goes on, how many bytes were to be printed, and a sum of them.
#[derive(Drop)]
struct State {
    count: usize,
    bytes: u64,
    total: u64,
}

// 31 times a sum, and a byte.
fn mix(total: u64, byte: u8) -> u64 {
    total.wrapping_mul(31).wrapping_add(byte as u64)
}

// A run's bytes added to a sum.
fn add_bytes(start: u64, out: &[u8]) -> u64 {
    out.iter().fold(start, |total, byte| mix(total, *byte))
}

// The bytes to be printed are added, and printed where they are to be shown.
fn tell(
    rt: HostRuntime,
    out: &[u8],
    kept: usize,
    written: usize,
    state: State,
    shown: bool,
) -> State {
    if out.len() < written {
        return state;
    }
    let total = add_bytes(state.total, &out[..written]);
    if shown {
        trials::print(rt, &out[..written]);
    }
    State {
        count: kept,
        bytes: state.bytes.wrapping_add(written as u64),
        total,
    }
}

// What an answer came to.
fn told(
    rt: HostRuntime,
    answered: Result<Place, Refusal>,
    out: &[u8],
    state: State,
    shown: bool,
) -> State {
    match answered {
        Ok(Place { count, written }) => tell(rt, out, count, written, state, shown),
        Err(_) => {
            trials::print(rt, b"REFUSED\n");
            state
        }
    }
}

// One block answered.
fn answer_part(
    rt: HostRuntime,
    block: &[u8],
    held: &mut [u8],
    out: &mut [u8],
    state: State,
    shown: bool,
) -> State {
    let count = state.count;
    let answered = line_prices::block::answer_block(block, held, count, out);
    told(rt, answered, out, state, shown)
}

// An input answered in blocks of a size.
fn read_parts(
    rt: HostRuntime,
    input: &[u8],
    size: usize,
    held: &mut [u8],
    out: &mut [u8],
    shown: bool,
) -> State {
    let mut state = State {
        count: 0,
        bytes: 0,
        total: 0,
    };
    for block in input.chunks(size.max(1)) {
        state = answer_part(rt, block, held, out, state, shown);
    }
    state
}

// The end of an input answered.
fn read_end(rt: HostRuntime, held: &[u8], out: &mut [u8], state: State, shown: bool) -> State {
    let count = state.count;
    let answered = line_prices::block::answer_end(held, count, out);
    told(rt, answered, out, state, shown)
}

// An input answered in blocks of a size, to its end.
fn run(rt: HostRuntime, input: &[u8], size: usize, shown: bool) -> State {
    let mut held = [0u8; 517];
    let mut out = [0u8; 61440];
    let state = read_parts(rt, input, size, &mut held, &mut out, shown);
    read_end(rt, &held, &mut out, state, shown)
}

// The count of bytes to be printed and their sum, for blocks of a size.
fn report(rt: HostRuntime, input: &[u8], size: usize) {
    let state = run(rt, input, size, false);
    trials::print_number(rt, size as u64);
    trials::print_number(rt, state.bytes);
    trials::print_number(rt, state.total);
    trials::print(rt, b"\n");
}

// The answers, then what they come to in blocks of each size.
pub fn run_all(rt: HostRuntime, input: &[u8]) {
    run(rt, input, 4096, true);
    for size in [1, 2, 7, 15, 517, 4096] {
        report(rt, input, size);
    }
}
