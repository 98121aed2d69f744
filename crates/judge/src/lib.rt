// Examples of number forms, and whether a bank agrees with one.
#![tactic(auto)]

ghost use Rattle.std.specs.Prelude.{Decides};
ghost use Rattle.bank.specs.Answers.{form_by};
ghost use Rattle.judge.specs.Claims.{ReadsAs, WritesAs, Refuses, Agrees};

use bank::{Bank, BankRefusal, FormName};

// What an example says. A reading with no number: the bytes have no value.
// A writing with no bytes: the number is out of range.
#[derive(Debug, Drop)]
pub enum Claim {
    Both(Vec<u8>, i64),
    Read(Vec<u8>, Option<i64>),
    Write(Option<Vec<u8>>, i64),
}

#[derive(Debug, Drop)]
pub struct Row {
    pub form: FormName,
    pub claim: Claim,
}

// No form is wider. A number is written to a fixed array, since a `Vec` could run out of memory.
const WIDEST: usize = 16;

// The bytes read as the number or, where there is none, have no value.
fn reads_as<B: Bank>(bank: &B, name: FormName, bytes: &[u8], number: Option<i64>) -> bool
    ensures { Decides result (ReadsAs (form_by (B.Bank.forms bank.now) name) bytes.now number) }
{
    bank.read(name, bytes) == number.ok_or(BankRefusal::NoValue)
}

// The number is written as the image.
fn writes_as<B: Bank>(bank: &B, name: FormName, number: i64, image: &[u8]) -> bool
    ensures { Decides result (WritesAs (form_by (B.Bank.forms bank.now) name) number image.now) }
{
    if image.len() > WIDEST {
        return false;
    }
    let mut room = [0u8; WIDEST];
    let part = &mut room[0..image.len()];
    bank.write(name, number, part).is_ok() && *part == *image
}

// The bank has the form, and the number is outside its range.
fn refuses<B: Bank>(bank: &B, name: FormName, number: i64) -> bool
    ensures { Decides result (Refuses (form_by (B.Bank.forms bank.now) name) number) }
{
    let Some(shape) = bank.shape(name) else {
        return false;
    };
    let mut room = [0u8; WIDEST];
    matches!(
        bank.write(name, number, &mut room[0..shape.width]),
        Err(BankRefusal::OutOfRange)
    )
}

// The bank reads and writes as the row says.
pub fn agrees<B: Bank>(bank: &B, row: &Row) -> bool
    ensures { Decides result (Agrees (form_by (B.Bank.forms bank.now) row.now.form) row.now.claim) }
{
    let form = row.form;
    match &row.claim {
        Claim::Both(bytes, number) => {
            reads_as(bank, form, bytes, Some(*number)) && writes_as(bank, form, *number, bytes)
        }
        Claim::Read(bytes, number) => reads_as(bank, form, bytes, *number),
        Claim::Write(Some(bytes), number) => writes_as(bank, form, *number, bytes),
        Claim::Write(None, number) => refuses(bank, form, *number),
    }
}
