// Mines as bits in a run of bytes, high bit first, as a board line has them.
#![tactic(auto)]

ghost use Rattle.std.specs.Prelude.{◌≡◌, false, ◌/◌, ◌<◌, length};
ghost use Rattle.lines.specs.BoardLine.{bit_at};
ghost use Rattle.mine_bits.specs.Bits.{SetNew, with_bit};

// Whether the bit at a place is set.
pub fn is_set(bits: &[u8], at: usize) -> bool
    requires { at / 8 < length bits.now }
    ensures { result ≡ bit_at bits.now at }
{
    (bits[at / 8] >> (7 - at % 8)) % 2 == 1
}

// Sets the bit at a place, which is not set.
fn set_bit(bits: &mut [u8], at: usize)
    requires { (at / 8 < length bits.old) × (bit_at bits.old at ≡ false) }
    ensures { bits.new ≡ with_bit bits.old at }
{
    bits[at / 8] = bits[at / 8] + (1 << (7 - at % 8));
}

// Sets the bit at a place, or answers false where it is set already.
pub fn set_new(bits: &mut [u8], at: usize) -> bool
    requires { at / 8 < length bits.old }
    ensures { SetNew bits.old at result bits.new }
{
    if is_set(bits, at) {
        return false;
    }
    set_bit(bits, at);
    true
}
