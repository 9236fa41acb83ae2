// Hexadecimal: one byte of a line, and bytes of two digits.
#![tactic(auto)]

ghost use Rattle.std.specs.Prelude.{◌≡◌, ◌+◌, ◌*◌, ◌<◌, ◌≤◌, eqb, length, get_or};
ghost use Rattle.std.proofs.lemmas.List.Edits.{sets};
ghost use Rattle.game.specs.Lists.{concat_map};
ghost use Rattle.hex_digits.specs.Hex.{byte_digits, bytes_of, hex_digit, hex_value, is_wrong, two_bytes};
ghost use Rattle.hex_digits.specs.Characters.{character_of};

// What one byte of a line is.
#[derive(Clone, Copy, Debug, PartialEq, Eq)]
pub enum Character {
    Digit(usize),
    End,
    Wrong,
}

// What a byte of a line is: a digit with its value, the line's end, or wrong.
pub fn character_of(byte: u8) -> Character
    ensures { result ≡ character_of byte }
{
    match byte {
        48..=57 => Character::Digit((byte - 48) as usize),
        65..=70 => Character::Digit((byte - 55) as usize),
        10 => Character::End,
        _ => Character::Wrong,
    }
}

// Whether a byte is no digit of a line.
pub fn is_wrong(byte: u8) -> bool
    ensures { result ≡ is_wrong byte }
{
    !matches!(character_of(byte), Character::Digit(_))
}

// Whether a byte ends a line.
pub fn is_end(byte: u8) -> bool
    ensures { result ≡ eqb byte 10 }
{
    matches!(character_of(byte), Character::End)
}

// The value of a digit; 0 for a wrong byte.
pub fn value_of(byte: u8) -> usize
    ensures { (result ≡ hex_value byte) × (result < 16) }
{
    match character_of(byte) {
        Character::Digit(value) => value,
        _ => 0,
    }
}

// The digit of a value.
pub fn digit_of(value: usize) -> u8
    requires { value < 16 }
    ensures { result ≡ hex_digit value }
{
    if value <= 9 {
        return (value + 48) as u8;
    }
    (value + 55) as u8
}

// The byte at a place of a line.
pub fn byte_at(line: &[u8], at: usize) -> usize
    requires { 2 * at + 2 ≤ length line.now }
    ensures { (result ≡ get_or (bytes_of line.now) at 0) × (result < 256) }
{
    let high = value_of(line[2 * at]);
    let low = value_of(line[2 * at + 1]);
    16 * high + low
}

// A byte's two digits put at a place of a lent run.
pub fn put_byte(out: &mut [u8], at: usize, byte: usize)
    requires { (at + 2 ≤ length out.old) × (byte < 256) }
    ensures { out.new ≡ sets out.old at (byte_digits byte) }
{
    let high = digit_of(byte / 16);
    let low = digit_of(byte % 16);
    out[at] = high;
    out[at + 1] = low;
}

// Two bytes, high first, put at a place of a lent run.
pub fn put_two(out: &mut [u8], at: usize, number: usize)
    requires { at + 4 ≤ length out.old }
    ensures { out.new ≡ sets out.old at (concat_map byte_digits (two_bytes number)) }
{
    put_byte(out, at, number / 256 % 256);
    put_byte(out, at + 2, number % 256);
}
