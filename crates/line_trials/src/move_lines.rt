// Stored move lines read and written, whole, cut and spoilt.
use refusals::Refusal;
use stored::Moves;

// What stands for a line that was refused.
const NONE: Moves = Moves {
    rows: 0,
    columns: 0,
    count: 0,
};

// The number of an answer, 0 for success.
fn number_of<T: Copy>(answer: Result<T, Refusal>) -> usize {
    match answer {
        Ok(_) => 0,
        Err(refusal) => refusals::number_of(refusal) as usize,
    }
}

// A line read into a list: the answer, then the list.
fn read_into(rt: HostRuntime, line: &[u8], list: &mut [u32]) {
    let read = stored::read_moves(line, list);
    trials::print_number(rt, number_of(read) as u64);
    let moves = read.unwrap_or(NONE);
    trials::print_number(rt, moves.rows as u64);
    trials::print_number(rt, moves.columns as u64);
    trials::print_number(rt, moves.count as u64);
    trials::print_list(rt, list);
}

// A line read into a list of so many words, four at most, which held 9 each.
fn read_line(rt: HostRuntime, line: &[u8], room: usize) {
    if 4 < room {
        return;
    }
    let mut list = [9u32; 4];
    read_into(rt, line, &mut list[..room]);
}

// A line cut at every place.
fn read_cuts(rt: HostRuntime, line: &[u8]) {
    for n in 0..line.len() {
        read_line(rt, &line[..n], 4);
    }
}

// Lines read: P7's cut at every place and whole, with too little room and just enough, the sides' edges, and no rows with a wrong byte count.
pub fn read_all(rt: HostRuntime) {
    let stored = b"0202000100010002000000030001";
    read_cuts(rt, stored);
    read_line(rt, stored, 4);
    read_line(rt, stored, 2);
    read_line(rt, stored, 3);
    read_line(rt, b"0002", 4);
    read_line(rt, b"0200", 4);
    read_line(rt, b"00FF00010001", 4);
    read_line(rt, b"FFFF", 4);
    read_line(rt, b"FFFFFFFFFFFF00000000", 4);
    read_line(rt, b"0101\n", 4);
    read_line(rt, b"010100000a00", 4);
    read_line(rt, b"000100", 4);
}

// Prints a number, how many digits, and the run.
fn print_written(rt: HostRuntime, number: usize, digits: usize, line: &[u8]) {
    trials::print_number(rt, number as u64);
    trials::print_number(rt, digits as u64);
    trials::print(rt, b" ");
    trials::print(rt, line);
    trials::print(rt, b"\n");
}

// Moves written into a run: the answer, then the run.
fn write_into(rt: HostRuntime, rows: usize, columns: usize, count: usize, line: &mut [u8]) {
    let list = [65537u32, 131072, 196609, 4294967295];
    let written = stored::write_moves(rows, columns, &list, count, line);
    print_written(rt, number_of(written), written.unwrap_or(0), line);
}

// Moves written into a run of so many bytes, a hundred at most, which held points.
fn write_line(rt: HostRuntime, rows: usize, columns: usize, count: usize, room: usize) {
    if 100 < room {
        return;
    }
    let mut line = [46u8; 100];
    write_into(rt, rows, columns, count, &mut line[..room]);
}

// Lines written: P7's, with a byte too few and two to spare, and the edges of sides, counts and room.
pub fn write_all(rt: HostRuntime) {
    write_line(rt, 2, 2, 3, 28);
    write_line(rt, 2, 2, 3, 27);
    write_line(rt, 2, 2, 3, 30);
    write_line(rt, 255, 255, 4, 36);
    write_line(rt, 2, 2, 5, 100);
    write_line(rt, 0, 2, 3, 28);
    write_line(rt, 2, 0, 3, 28);
    write_line(rt, 256, 2, 3, 28);
    write_line(rt, 2, 256, 3, 28);
    write_line(rt, 1, 1, 0, 4);
    write_line(rt, 1, 1, 0, 3);
    write_line(rt, 1, 1, 18446744073709551615, 40);
}

// The number that a line is answered with.
fn read_number(line: &[u8; 12]) -> usize {
    let mut list = [9u32; 4];
    number_of(stored::read_moves(line, &mut list))
}

// The number of a line with another byte at a place.
fn varied(place: usize, value: u8) -> usize {
    let mut line = [48u8, 50, 48, 50, 48, 48, 48, 49, 48, 48, 48, 49];
    if let Some(byte) = line.get_mut(place) {
        *byte = value;
    }
    read_number(&line)
}

// How many lines have a number, of those with each byte value at a place.
fn count_of(place: usize, number: usize) -> u64 {
    let mut count: u64 = 0;
    for value in 0..=255u8 {
        if varied(place, value) == number {
            count = count.wrapping_add(1);
        }
    }
    count
}

// How many lines are read, refused for their shape and refused as malformed, at a place.
fn vary(rt: HostRuntime, place: usize) {
    trials::print_number(rt, count_of(place, 0));
    trials::print_number(rt, count_of(place, 1));
    trials::print_number(rt, count_of(place, 8));
    trials::print(rt, b"\n");
}

// All 256 byte values at each place of a short stored line.
pub fn vary_all(rt: HostRuntime) {
    for place in 0..12 {
        vary(rt, place);
    }
}
