// An example as a line of the table has it.
ghost use Rattle.std.specs.Prelude.{◌≡◌, true, ◌∷◌, ◌++◌, IfOk, IfErr, MatchOption, Ok, Err, codes, vec_items};
ghost use Rattle.std.specs.Fn.{FnOnceReturnsAt};
ghost use Rattle.std.specs.Option.{option_map};
ghost use Rattle.vectors.specs.Rows.{BytesOf, NumberOf, ClaimOf, RowOf, Upheld};

use crate::fault::Fault;
use crate::hex;
use bank::{Bank, FormName};
use judge::{Claim, Row};
use std::alloc::{AllocError, Global};

// The first column, and the columns after it.
fn cut(line: &str) -> Result<(&str, &str), Fault>
    ensures { IfOk result (λ x. line.now ≡ x.0.now ++ (9 ∷ x.1.now)) }
{
    line.split_once('\t').ok_or(Fault::Malformed)
}

// What a column holds, as `read` makes it of the text, or none where it says so.
fn optional<T: Drop, F: FnOnce(&str) -> Result<T, Fault>>(
    text: &str,
    read: F,
) -> Result<Option<T>, Fault>
    requires { F.IsAlwaysCallable read }
    ensures ok { IfOk result (λ o. MatchOption o (text.now ≡ codes "none") (λ value. FnOnceReturnsAt F.FnOnce read text.now (Ok value))) }
    ensures fault { IfErr result (λ fault. FnOnceReturnsAt F.FnOnce read text.now (Err fault)) }
{
    if text == "none" {
        return Ok(None);
    }
    Ok(Some(read(text)?))
}

fn bytes_of(heap: Global, text: &str) -> Result<Option<Vec<u8>>, Fault>
    ensures { IfOk result (λ o. BytesOf text.now (option_map vec_items o)) }
{
    optional(text, |text| hex::bytes(heap, text.as_bytes()))
}

fn number_of(text: &str) -> Result<Option<i64>, Fault>
    ensures { IfOk result (NumberOf text.now) }
{
    optional(text, |text| Ok(text.parse()?))
}

fn claim_of(direction: &str, bytes: Option<Vec<u8>>, number: Option<i64>) -> Result<Claim, Fault>
    ensures { IfOk result (ClaimOf direction.now (option_map vec_items bytes) number) }
{
    match (direction, bytes, number) {
        ("both", Some(b), Some(n)) => Ok(Claim::Both(b, n)),
        ("read", Some(b), n) => Ok(Claim::Read(b, n)),
        ("write", b, Some(n)) => Ok(Claim::Write(b, n)),
        _ => Err(Fault::Malformed),
    }
}

// The columns are letter, size, bytes, number, direction and a note.
pub fn parse(heap: Global, line: &str) -> Result<Row, Fault>
    ensures { IfOk result (RowOf line.now) }
{
    let (letter, rest) = cut(line)?;
    let (size, rest) = cut(rest)?;
    let (bytes, rest) = cut(rest)?;
    let (number, rest) = cut(rest)?;
    let (direction, _) = cut(rest)?;
    let form = FormName {
        letter: letter.parse()?,
        size: size.parse()?,
    };
    let number = number_of(number)?;
    let claim = claim_of(direction, bytes_of(heap, bytes)?, number)?;
    Ok(Row { form, claim })
}

// The line is a row that the bank agrees with; one that cannot be parsed is not.
pub fn agrees<B: Bank>(bank: &B, heap: Global, line: &str) -> Result<bool, AllocError>
    ensures { IfOk result (λ b. b ≡ true → Upheld (B.Bank.forms bank.now) line.now) }
{
    match parse(heap, line) {
        Ok(row) => Ok(judge::agrees(bank, &row)),
        Err(Fault::NoMemory(error)) => Err(error),
        Err(_) => Ok(false),
    }
}
