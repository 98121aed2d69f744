// Decimal numbers, zoned and packed: digits in the order of the bytes, and a sign in the last byte beside one of them.
ghost use Rattle.std.specs.Prelude.{◌≡◌, ℕ, ◌-◌, ◌^◌, ◌<◌, ◌≤◌, length, map, pos, unsigned_abs};
ghost use Rattle.encodings.specs.Decimal.{digits_then_sign, sign_of};
ghost use Rattle.encodings.specs.Digits.{digits};
ghost use Rattle.encodings.specs.Layouts.{DigitLayout, LawfulDigitLayout};
ghost use Rattle.forms.specs.Signs.{half_of, signed, SignOf};

// The highest number by its count of digits: a table, since `pow` is a loop that each write would go through.
const HIGHEST: [i64; 16] = [
    0,
    9,
    99,
    999,
    9_999,
    99_999,
    999_999,
    9_999_999,
    99_999_999,
    999_999_999,
    9_999_999_999,
    99_999_999_999,
    999_999_999_999,
    9_999_999_999_999,
    99_999_999_999_999,
    999_999_999_999_999,
];

pub(crate) fn highest(size: usize) -> i64
    requires { size ≤ 15 }
    ensures { result ≡ pos (10 ^ size - 1) }
{
    HIGHEST[size]
}

// A sign, and the half byte that is written for it.
#[derive(Clone, Copy, Debug, PartialEq, Eq)]
pub(crate) enum Sign {
    Plus = 12,
    Minus = 13,
}

// A half byte that is no sign.
#[derive(Clone, Copy, Debug, PartialEq, Eq)]
pub(crate) struct NoSign;

// A, C, E and F are plus, B and D are minus, and a half below A is no sign.
impl TryFrom<u8> for Sign {
    type Error = NoSign;

    ghost try_from_gives = { SignOf };

    fn try_from(half: u8) -> Result<Sign, NoSign> {
        match half {
            0..=9 => Err(NoSign),
            11 | 13 => Ok(Sign::Minus),
            _ => Ok(Sign::Plus),
        }
    }
}

impl From<Sign> for u8 {
    ghost from_gives = { λ sign half. half ≡ half_of sign };

    fn from(sign: Sign) -> u8 {
        sign as u8
    }
}

impl Sign {
    // Plus for zero and above, so that no zero is written with a minus.
    fn of(number: i64) -> Sign
        ensures { half_of result ≡ sign_of number }
    {
        if number >= 0 { Sign::Plus } else { Sign::Minus }
    }

    fn apply(self, magnitude: u64) -> i64
        requires { magnitude < 2 ^ 63 }
        ensures { result ≡ signed self magnitude }
    {
        let number = magnitude as i64;
        match self {
            Sign::Plus => number,
            Sign::Minus => -number,
        }
    }
}

// How digits stand in the bytes of a kind of decimal number.
pub(crate) trait Layout {
    // A byte before the last is one digit in this base.
    const BASE: u64;

    ghost BASE: { ℕ };

    ghost layout: { DigitLayout };

    // The digit of a byte before the last, if it is one.
    fn digit(byte: u8) -> Option<u64>
        ensures { result ≡ layout.digit byte };

    // The byte of such a digit.
    fn byte(digit: u64) -> u8
        requires { digit < BASE }
        ensures { result ≡ layout.byte digit };

    // The digit half and the sign half of the last byte.
    fn ends(byte: u8) -> (u8, u8)
        ensures digit { result.0 ≡ layout.digit_half byte }
        ensures sign { result.1 ≡ layout.sign_half byte };

    // The last byte of a digit and a sign.
    fn last(digit: u8, sign: Sign) -> u8
        requires { digit < 10 }
        ensures { result ≡ layout.last digit (half_of sign) };

    ghost base_is: { BASE ≡ layout.base };

    ghost lawful: { LawfulDigitLayout layout };
}

// The number of a part, if each of its halves but the last is a digit, and the last a sign.
#[tactic(auto, using(encodings::proofs::Digits::room))]
pub(crate) fn value<L: Layout>(part: &[u8]) -> Option<i64>
    requires { L.BASE ^ length part.now ≤ 10 ^ 16 }
    ensures { result ≡ digits_then_sign 0 (L.layout.halves part.now) }
{
    let (last, front) = part.split_last()?;
    let mut n = 0;
    for byte in front {
        n = n * L::BASE + L::digit(*byte)?;
    }
    let (digit, sign) = L::ends(*last);
    if digit > 9 {
        return None;
    }
    let sign = Sign::try_from(sign).ok()?;
    Some(sign.apply(n * 10 + u64::from(digit)))
}

// Writes the lowest digits of `rest`, as many as there are bytes, the highest first.
#[tactic(auto, using(encodings::proofs::Backward::bytes_last))]
fn put_digits<L: Layout>(part: &mut [u8], rest: u64)
    ensures { part.new ≡ map L.layout.byte (digits L.BASE (length part.old) rest) }
{
    if let Some((last, front)) = part.split_last_mut() {
        *last = L::byte(rest % L::BASE);
        put_digits::<L>(front, rest / L::BASE);
    }
}

// Writes the magnitude's lowest digits, as many as the part holds, and the sign.
pub(crate) fn put<L: Layout>(number: i64, part: &mut [u8])
    requires { 1 ≤ length part.old }
    ensures { part.new ≡ L.layout.image (sign_of number) (length part.old) (unsigned_abs number) }
{
    let magnitude = number.unsigned_abs();
    let last = part.len() - 1;
    part[last] = L::last((magnitude % 10) as u8, Sign::of(number));
    put_digits::<L>(&mut part[..last], magnitude / 10);
}
