// Bytes from hex text.
ghost use Rattle.std.specs.Prelude.{◌≡◌, ◌<◌, IfSome, IfOk, IfErr};
ghost use Rattle.vectors.specs.Hex.{digit_value, byte_value, HexOf, HexFault};

use crate::fault::Fault;
use std::alloc::Global;

// `char::to_digit` would take small letters too.
fn digit(c: u8) -> Option<u8>
    ensures value { result ≡ digit_value c }
    ensures small { IfSome result (λ d. d < 16) }
{
    match c {
        b'0'..=b'9' => Some(c - b'0'),
        b'A'..=b'F' => Some(c - b'A' + 10),
        _ => None,
    }
}

fn byte(high: u8, low: u8) -> Option<u8>
    ensures { result ≡ byte_value high low }
{
    Some(16 * digit(high)? + digit(low)?)
}

// The bytes of a text such as `12 3C`.
pub fn bytes(heap: Global, text: &[u8]) -> Result<Vec<u8>, Fault>
    ensures bytes { IfOk result (λ v. HexOf text.now v.items) }
    ensures fault { IfErr result (HexFault text.now) }
{
    if text.len() % 3 != 2 {
        return Err(Fault::Malformed);
    }
    let mut found = Vec::new(heap);
    for part in text.chunks(3) {
        let ([high, low] | [high, low, b' ']) = part else {
            return Err(Fault::Malformed);
        };
        found.push(byte(*high, *low).ok_or(Fault::Malformed)?)?;
    }
    Ok(found)
}
