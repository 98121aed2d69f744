// Packed numbers: two digits a byte, the sign in the last half; with an even size the first half is spare.
ghost use Rattle.std.specs.Prelude.{◌≡◌, ◌/◌, ◌<◌, ◌≤◌, ◌&&◌, length, nat_lt};
ghost use Rattle.encodings.specs.Decimal.{packed_value, even};
ghost use Rattle.encodings.specs.Layouts.{packed_layout};
ghost use Rattle.encodings.proofs.Layouts.{packed_laid};

use crate::decimal::{self, Layout, Sign};

pub(crate) struct Packed;

impl Layout for Packed {
    ghost use Rattle.std.specs.Prelude.{refl};

    const BASE: u64 = 100;

    ghost BASE = { 100 };

    ghost layout = { packed_layout };

    ghost base_is = { refl };

    ghost lawful = { packed_laid };

    fn digit(byte: u8) -> Option<u64> {
        let high = byte / 16;
        let low = byte % 16;
        (high <= 9 && low <= 9).then(|| u64::from(high * 10 + low))
    }

    fn byte(digit: u64) -> u8 {
        (digit / 10 * 16 + digit % 10) as u8
    }

    fn ends(byte: u8) -> (u8, u8) {
        (byte / 16, byte % 16)
    }

    fn last(digit: u8, sign: Sign) -> u8 {
        digit * 16 + u8::from(sign)
    }
}

// The number of a part; with an even size the first half is spare, and has to be 0.
#[tactic(auto, using(encodings::proofs::Packed::packed_start, encodings::proofs::Digits::packed_room))]
pub(crate) fn value(size: usize, part: &[u8]) -> Option<i64>
    requires { length part.now ≤ 8 }
    ensures { result ≡ packed_value size part.now }
{
    if spare_used(size, *part.first()?) {
        return None;
    }
    decimal::value::<Packed>(part)
}

// Whether the first byte's high half is spare and not 0.
fn spare_used(size: usize, first: u8) -> bool
    ensures { result ≡ (even size && nat_lt 0 (first / 16)) }
{
    size % 2 == 0 && first / 16 > 0
}
