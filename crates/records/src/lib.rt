// Moves as records with kind, row and column, in lent runs that are equal to the flat list.
#![tactic(auto)]

ghost use Rattle.std.specs.Prelude.{◌≡◌, map, get_or, set, take};
ghost use Rattle.records.specs.Records.{no_move, record_of, move_word, over};

// A move: its kind, and the row and column of its cell; by default no move.
#[derive(Clone, Copy, Debug, Default, PartialEq, Eq)]
pub struct MoveRecord {
    pub kind: u32,
    pub row: u32,
    pub column: u32,
}

// The record of a move word, on a grid of so many rows.
pub fn record_of(word: u32, rows: usize) -> MoveRecord
    ensures { result ≡ record_of rows word }
{
    let kind = word / 65536;
    let index = (word % 65536) as usize;
    if rows == 0 {
        return MoveRecord {
            kind,
            row: index as u32,
            column: 0,
        };
    }
    MoveRecord {
        kind,
        row: (index % rows) as u32,
        column: (index / rows) as u32,
    }
}

// The move word of a record; 0, which is no move, where the record is of no cell.
pub fn word_of(played: MoveRecord, rows: usize) -> u32
    ensures { result ≡ move_word rows played }
{
    if 255 < rows {
        return 0;
    }
    if rows <= played.row as usize {
        return 0;
    }
    if 255 <= played.column {
        return 0;
    }
    if 65536 <= played.kind {
        return 0;
    }
    played.kind * 65536 + (played.column * (rows as u32) + played.row)
}

// Record k of a lent run; past its end no move.
pub fn read_record(run: &[MoveRecord], k: usize) -> MoveRecord
    ensures { result ≡ get_or run.now k no_move }
{
    run.get(k).copied().unwrap_or_default()
}

// An entry is written at place k of a lent list; past its end nothing changes.
fn write<T: Copy>(list: &mut [T], k: usize, entry: T)
    ensures { list.new ≡ set list.old k entry }
{
    if k < list.len() {
        list[k] = entry;
    }
}

// A record is written at place k of a lent run; past its end nothing changes.
pub fn write_record(run: &mut [MoveRecord], k: usize, played: MoveRecord)
    ensures { run.new ≡ set run.old k played }
{
    write(run, k, played);
}

// The first words of a list as records of a lent run, as far as both go; the rest of the run is unchanged.
pub fn records_of(run: &mut [MoveRecord], list: &[u32], count: usize, rows: usize)
    ensures { run.new ≡ over (map (record_of rows) (take count list.now)) run.old }
{
    let words = &list[..count.min(run.len()).min(list.len())];
    // No zip of both: of the records behind an adapter no loop knows what they become.
    for (k, &word) in words.iter().enumerate() {
        write_record(run, k, record_of(word, rows));
    }
}

// The first records of a run as words of a lent list, as far as both go; the rest of the list is unchanged.
pub fn words_of(list: &mut [u32], run: &[MoveRecord], count: usize, rows: usize)
    ensures { list.new ≡ over (map (move_word rows) (take count run.now)) list.old }
{
    for k in 0..count.min(list.len()).min(run.len()) {
        write(list, k, word_of(read_record(run, k), rows));
    }
}
