// The fields of a case line: words parted by spaces, NAME=NUMBER or NAME=RUN.
ghost use Rattle.std.specs.Prelude.{◌≡◌, ◌+◌, ◌-◌, ◌≤◌, length, drop};
ghost use Rattle.trials.specs.Text.{before, digits_on, with_digit};

use kinds::Kind;

// The place of the first such byte from a place on, or the text's length.
pub fn until(text: &[u8], from: usize, mark: u8) -> usize
    requires { from ≤ length text.now }
    ensures value { result ≡ from + before mark (drop from text.now) }
    ensures lower_bound { (from ≤ result) × (result ≤ length text.now) }
{
    let rest = &text[from..];
    for (ahead, &byte) in rest.iter().enumerate() {
        if byte == mark {
            return from + ahead;
        }
    }
    text.len()
}

// Whether a text has a word at a place.
pub fn is(text: &[u8], from: usize, word: &[u8]) -> bool {
    match text.get(from..) {
        Some(rest) => rest.starts_with(word),
        None => false,
    }
}

// What stands past the first such byte, to the end of the text; nothing where there is none.
fn past_first(text: &[u8], mark: u8) -> &[u8]
    ensures { length result.now ≤ length text.now - 1 }
{
    match text.iter().position(|byte| *byte == mark) {
        Some(place) => &text[place + 1..],
        None => &text[text.len()..],
    }
}

// What stands past a field's name, to the end of the text; nothing where there is no such field. A word begins the text, and stands behind each space.
fn field<'t>(text: &'t [u8], name: &[u8]) -> &'t [u8]
    ensures { length result.now ≤ length text.now }
{
    if let Some(value) = text.strip_prefix(name) {
        return value;
    }
    for (at, &byte) in text.iter().enumerate() {
        if byte == b' ' {
            if let Some(value) = text[at + 1..].strip_prefix(name) {
                return value;
            }
        }
    }
    &text[text.len()..]
}

// A number with a digit more; the largest number where that is larger.
fn with_digit(value: usize, digit: usize) -> usize
    requires { digit ≤ 9 }
    ensures { result ≡ with_digit value digit }
{
    value.saturating_mul(10).saturating_add(digit)
}

// The number whose digits a text begins with.
fn number_from(text: &[u8]) -> usize
    ensures { result ≡ digits_on 0 text.now }
{
    let mut value = 0;
    for &byte in text {
        if byte < b'0' || b'9' < byte {
            return value;
        }
        value = with_digit(value, (byte - b'0') as usize);
    }
    value
}

// The number of a field; 0 where there is none.
pub fn number(text: &[u8], name: &[u8]) -> usize {
    number_from(field(text, name))
}

// A run's pattern, which ends at an x, a space or the text's end, and what follows it.
fn pattern_of(run: &[u8]) -> (&[u8], &[u8]) {
    let end = until(run, 0, b'x').min(until(run, 0, b' '));
    run.split_at(end)
}

// How many a run has, by what follows its pattern: the number after the x, or the pattern's own; at most so many.
fn run_length(after: &[u8], own: usize, most: usize) -> usize
    ensures { result ≤ most }
{
    match after.strip_prefix(b"x") {
        Some(times) => number_from(times).min(most),
        None => own.min(most),
    }
}

// Whether a pattern is a picture, of stars and points.
fn is_picture(pattern: &[u8]) -> bool {
    matches!(pattern.first(), Some(b'*' | b'.'))
}

// How many values a pattern has: the signs of a picture, or the parts between commas.
fn values_in(pattern: &[u8]) -> usize {
    if is_picture(pattern) {
        return pattern.len();
    }
    pattern.split_inclusive(|byte| *byte == b',').count()
}

// What stands in a pattern from the value on that is for a place of a run, where the pattern of so many values is repeated: to the pattern's end, since no more of it is read than the value has.
fn value_at(pattern: &[u8], count: usize, place: usize) -> &[u8] {
    if count == 0 {
        return pattern;
    }
    let turn = place % count;
    if is_picture(pattern) {
        return pattern.get(turn..).unwrap_or_default();
    }
    let mut rest = pattern;
    for _ in 0..turn {
        rest = past_first(rest, b',');
    }
    rest
}

// How many values a run of a case has, at most so many.
pub fn values(text: &[u8], name: &[u8], most: usize) -> usize
    ensures { result ≤ most }
{
    let (pattern, after) = pattern_of(field(text, name));
    run_length(after, values_in(pattern), most)
}

// How many bytes a run of a case has, two digits each, at most so many.
pub fn bytes(text: &[u8], name: &[u8], most: usize) -> usize
    ensures { result ≤ most }
{
    let (pattern, after) = pattern_of(field(text, name));
    run_length(after, pattern.len() / 2, most)
}

// The value of the digit at a place, 0 past the end.
fn digit_at(text: &[u8], place: usize) -> usize
    ensures { result ≤ 15 }
{
    match text.get(place) {
        Some(&digit) => hex_digits::value_of(digit),
        None => 0,
    }
}

// The byte of two digits at a place.
pub fn byte_at(text: &[u8], place: usize) -> usize
    ensures { result ≤ 255 }
{
    if place >= 65535 {
        return 0;
    }
    16 * digit_at(text, 2 * place) + digit_at(text, 2 * place + 1)
}

// So much below 0.
fn below(size: usize) -> i32 {
    if size == 0 {
        return 0;
    }
    let less = ((size - 1) % 2147483648) as i32;
    -1 - less
}

// The value that a text begins with: -1 for a star, 0 for a point, or a number with its sign.
fn value_from(text: &[u8]) -> i32 {
    match text {
        [b'*', ..] => -1,
        [b'-', size @ ..] => below(number_from(size)),
        _ => (number_from(text) % 2147483648) as i32,
    }
}

// A move's kind by its letter, L, F, C or U, which takes a flag away.
fn kind_of(byte: u8) -> Option<Kind> {
    match byte {
        b'L' => Some(Kind::Left),
        b'F' => Some(Kind::Flag),
        b'C' => Some(Kind::Chord),
        b'U' => Some(Kind::Unflag),
        _ => None,
    }
}

// The word that a text begins with: a kind's letter and an index, or a number.
fn word_from(text: &[u8]) -> u32 {
    if let Some((&letter, index)) = text.split_first() {
        if let Some(kind) = kind_of(letter) {
            return 65536 * u32::from(kind) + (number_from(index) % 65536) as u32;
        }
    }
    (number_from(text) % 4294967296) as u32
}

// A run filled by the pattern of a field.
pub fn lay_values(text: &[u8], name: &[u8], run: &mut [i32]) {
    let (pattern, _) = pattern_of(field(text, name));
    let count = values_in(pattern);
    for (k, value) in run.iter_mut().enumerate() {
        *value = value_from(value_at(pattern, count, k));
    }
}

// The last value of a run, by a field, where there is one.
pub fn lay_last(text: &[u8], name: &[u8], run: &mut [i32]) {
    let value = field(text, name);
    if value.is_empty() {
        return;
    }
    if let Some(last) = run.last_mut() {
        *last = value_from(value);
    }
}

// A run of words, filled by the pattern of a field.
pub fn lay_words(text: &[u8], name: &[u8], run: &mut [u32]) {
    let (pattern, _) = pattern_of(field(text, name));
    let count = values_in(pattern);
    for (k, word) in run.iter_mut().enumerate() {
        *word = word_from(value_at(pattern, count, k));
    }
}

// The byte for a place of a run in its pattern of so many bytes, which is repeated.
fn turned_byte(pattern: &[u8], count: usize, place: usize) -> u8 {
    if count == 0 {
        return 0;
    }
    byte_at(pattern, place % count) as u8
}

// The same for bytes.
pub fn lay_bytes(text: &[u8], name: &[u8], run: &mut [u8]) {
    let (pattern, _) = pattern_of(field(text, name));
    let count = pattern.len() / 2;
    for (k, byte) in run.iter_mut().enumerate() {
        *byte = turned_byte(pattern, count, k);
    }
}
