// Zoned numbers: a digit in each byte's low half, the sign in the last byte's high half.
ghost use Rattle.encodings.specs.Layouts.{zoned_layout};
ghost use Rattle.encodings.proofs.Layouts.{zoned_laid};

use crate::decimal::{Layout, Sign};

pub(crate) struct Zoned;

impl Layout for Zoned {
    ghost use Rattle.std.specs.Prelude.{refl};

    const BASE: u64 = 10;

    ghost BASE = { 10 };

    ghost layout = { zoned_layout };

    ghost base_is = { refl };

    ghost lawful = { zoned_laid };

    fn digit(byte: u8) -> Option<u64> {
        let digit = byte % 16;
        (digit <= 9).then_some(u64::from(digit))
    }

    fn byte(digit: u64) -> u8 {
        240 + digit as u8
    }

    fn ends(byte: u8) -> (u8, u8) {
        (byte % 16, byte / 16)
    }

    fn last(digit: u8, sign: Sign) -> u8 {
        u8::from(sign) * 16 + digit
    }
}
