// The bank that comes with the reckoner: zoned, packed and binary numbers.
#![tactic(auto)]

ghost use Rattle.bank.specs.Answers.{form_by};
ghost use Rattle.encodings.specs.Shipped.{shipped};
ghost use Rattle.encodings.proofs.Shipped.{shipped_lawful};
ghost use Rattle.forms.specs.Formats.{Fits};

use bank::{Bank, BankRefusal, FormName, Shape};
use format::Format;

mod binary;
mod decimal;
mod format;
mod packed;
mod zoned;

// The form by its name, for a part of so many bytes.
fn fitting(name: FormName, length: usize) -> Result<Format, BankRefusal>
    ensures { Fits (form_by shipped name) length result }
{
    let format = Format::try_from(name)?;
    if length == format.width() {
        Ok(format)
    } else {
        Err(BankRefusal::WrongWidth)
    }
}

// The shipped bank.
#[derive(Clone, Copy, Debug)]
pub struct Shipped;

impl Bank for Shipped {
    ghost forms = { λ _. shipped };

    ghost lawful = { λ _. shipped_lawful };

    fn shape(&self, name: FormName) -> Option<Shape> {
        Format::try_from(name).ok().map(|format| format.shape())
    }

    fn read(&self, name: FormName, part: &[u8]) -> Result<i64, BankRefusal> {
        let format = fitting(name, part.len())?;
        format.value(part).ok_or(BankRefusal::NoValue)
    }

    fn write(&self, name: FormName, number: i64, part: &mut [u8]) -> Result<(), BankRefusal> {
        let format = fitting(name, part.len())?;
        if !format.shape().holds(number) {
            return Err(BankRefusal::OutOfRange);
        }
        format.put(number, part);
        Ok(())
    }
}
