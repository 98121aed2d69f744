// Binary numbers: the highest byte first, and two's complement where there is a sign.
ghost use Rattle.std.specs.Prelude.{◌≡◌, ◌≤◌, true, ◌||◌, length, ◌==◌};
ghost use Rattle.std.specs.Int.{w64, cast_unsigned};
ghost use Rattle.encodings.specs.Digits.{digits};

// The number of a part of 2 or 4 bytes, by the function that makes a number of so many.
pub(crate) fn value<S: Into<i64>, L: Into<i64>, F: FnOnce([u8; 2]) -> S, G: FnOnce([u8; 4]) -> L>(
    part: &[u8],
    two: F,
    four: G,
) -> i64
    requires size { (length part.now == 2 || length part.now == 4) ≡ true }
    requires two { F.IsAlwaysCallable two }
    requires four { G.IsAlwaysCallable four }
    ensures two { length part.now ≡ 2 → (n : S) × F.post two part.now n × S.converts n result }
    ensures four { length part.now ≡ 4 → (n : L) × G.post four part.now n × L.converts n result }
{
    match *part {
        [a, b] => two([a, b]).into(),
        [a, b, c, d] => four([a, b, c, d]).into(),
        _ => unreachable!(),
    }
}

// Writes the number's lowest bytes to a part of 2 or 4. A copy of a length that is known here is not a call.
#[tactic(auto, using(encodings::proofs::Binary::last_bytes))]
pub(crate) fn put(number: i64, part: &mut [u8])
    requires { (length part.old == 2 || length part.old == 4) ≡ true }
    ensures { part.new ≡ digits 256 (length part.old) (cast_unsigned w64 number) }
{
    let bytes = number.to_be_bytes();
    match part.len() {
        2 => part.copy_from_slice(&bytes[6..]),
        4 => part.copy_from_slice(&bytes[4..]),
        _ => unreachable!(),
    }
}
