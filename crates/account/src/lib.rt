// The account of a ticket, the bytes of one weighing: what the program prints.
#![tactic(auto)]

ghost use Rattle.std.specs.Prelude.{◌≡◌, ◌+◌, ◌≤◌, length, IfOk, string_bytes};
ghost use Rattle.account.specs.Account.{field_number, account_text};
ghost use Rattle.account.specs.Weighing.{Tells};

use bank::{Bank, FormName};
use figures::Line;
use std::alloc::{AllocError, Global};

// A number in a ticket: its form, its decimal places, and where its bytes stand.
struct Field {
    form: FormName,
    places: u8,
    offset: usize,
    width: usize,
}

const GROSS: Field = Field {
    form: FormName {
        letter: 'p',
        size: 7,
    },
    places: 1,
    offset: 0,
    width: 4,
};

const TARE: Field = Field {
    form: FormName {
        letter: 'p',
        size: 7,
    },
    places: 1,
    offset: 4,
    width: 4,
};

const PRICE: Field = Field {
    form: FormName {
        letter: 'p',
        size: 5,
    },
    places: 2,
    offset: 8,
    width: 3,
};

const PAY: Field = Field {
    form: FormName {
        letter: 'p',
        size: 9,
    },
    places: 2,
    offset: 11,
    width: 5,
};

// The layout of a weighbridge's ticket, and its length in bytes.
const LAYOUT: [Field; 4] = [GROSS, TARE, PRICE, PAY];

const LENGTH: usize = 16;

// The number that the bank reads in the field's own bytes.
fn read_field<B: Bank>(bank: &B, ticket: &[u8], field: &Field) -> Option<i64>
    requires { field.now.offset + field.now.width ≤ length ticket.now }
    ensures { result ≡ field_number (B.forms bank.now) ticket.now field.now }
{
    let part = &ticket[field.offset..field.offset + field.width];
    bank.read(field.form, part).ok()
}

// A line for each field; a ticket of another length than the layout's is refused by the line `lay 22`.
pub fn account<B: Bank>(heap: Global, bank: &B, ticket: &[u8]) -> Result<String, AllocError>
    ensures bytes { IfOk result (λ s. string_bytes s ≡ account_text (B.forms bank.now) ticket.now) }
    ensures tells { IfOk result (λ s. Tells (B.forms bank.now) ticket.now (string_bytes s)) }
{
    if ticket.len() != LENGTH {
        return String::from_str(heap, "lay 22\n");
    }
    let mut text = String::new(heap);
    for (i, field) in (0..).zip(&LAYOUT) {
        let line = Line {
            field: i,
            row: None,
            number: read_field(bank, ticket, field),
            places: field.places,
        };
        text.push_str(line.to_text(heap)?.as_str())?;
    }
    Ok(text)
}
