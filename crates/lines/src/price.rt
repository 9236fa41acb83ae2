// Price lines.
ghost use Rattle.std.specs.Prelude.{◌≡◌};
ghost use Rattle.hex_digits.specs.Hex.{put_digits};
ghost use Rattle.lines.specs.PriceLine.{figures, held_price, price_digits};

use refusals::{Refusal, number_of};

// What a line that is not refused is priced at: 3BV, greedy and openings-first clicks.
#[derive(Clone, Copy, Debug, PartialEq, Eq)]
pub struct Price {
    pub units: usize,
    pub greedy: usize,
    pub openings_first: usize,
}

// A number and a price as fourteen digits put at a place of a lent run, where they have room.
pub fn put_price(out: &mut [u8], at: usize, number: usize, price: Price)
    ensures { out.new ≡ put_digits at (price_digits (figures number price)) out.old }
{
    if out.len() < 14 {
        return;
    }
    if out.len() - 14 < at {
        return;
    }
    hex_digits::put_byte(out, at, number % 256);
    hex_digits::put_two(out, at + 2, price.units);
    hex_digits::put_two(out, at + 6, price.greedy);
    hex_digits::put_two(out, at + 10, price.openings_first);
}

// What a line is priced at put at a place of a lent run, where it has room: 00 and the price, or the refusal's number and zeros.
pub fn put_priced(out: &mut [u8], at: usize, priced: Result<Price, Refusal>)
    ensures { out.new ≡ put_digits at (price_digits (held_price priced)) out.old }
{
    match priced {
        Ok(price) => put_price(out, at, 0, price),
        Err(refusal) => {
            let zeros = Price {
                units: 0,
                greedy: 0,
                openings_first: 0,
            };
            put_price(out, at, usize::from(number_of(refusal)), zeros);
        }
    }
}
