// The library for C: the shipped bank's reading and writing, answering 0 for done, else the refusal's number.
#![tactic(auto)]

ghost use Rattle.std.specs.Prelude.{◌≡◌};
ghost use Rattle.sulboryq.specs.Exports.{ReadForC, WrittenForC};

use bank::{Bank, FormName};
use forms::Shipped;

// C has the letter as a byte.
fn name_of(letter: u8, size: u8) -> FormName
    ensures letter { result.letter ≡ letter }
    ensures size { result.size ≡ size }
{
    FormName {
        letter: char::from(letter),
        size,
    }
}

// Puts the part's number into `number`; a refusal leaves it as it was.
#[unsafe(no_mangle)]
pub extern "C" fn sulboryq_read(letter: u8, size: u8, part: &[u8], number: &mut i64) -> u8
    ensures { ReadForC letter size part.now number.old number.new result }
{
    match Shipped.read(name_of(letter, size), part) {
        Ok(value) => {
            *number = value;
            0
        }
        Err(refusal) => u8::from(refusal),
    }
}

// Puts the number's image into the part; a refusal leaves every byte as it was.
#[unsafe(no_mangle)]
pub extern "C" fn sulboryq_write(letter: u8, size: u8, number: i64, part: &mut [u8]) -> u8
    ensures { WrittenForC letter size number part.old part.new result }
{
    match Shipped.write(name_of(letter, size), number, part) {
        Ok(()) => 0,
        Err(refusal) => u8::from(refusal),
    }
}
