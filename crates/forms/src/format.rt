// A form of the shipped bank: what it holds, and how a part is read and written by it.
ghost use Rattle.std.specs.Prelude.{◌≡◌, ◌-◌, ◌^◌, ◌≤◌, true, length, pos, negsuc, Some};
ghost use Rattle.bank.specs.Model.{Within};
ghost use Rattle.bank.specs.Answers.{shape_of};
ghost use Rattle.encodings.specs.Shipped.{has_size};

use crate::packed::Packed;
use crate::zoned::Zoned;
use crate::{binary, decimal, packed};
use bank::{BankRefusal, FormName, Shape};
use encodings::Kind;

// A kind, and a size that it has. There are four kinds and no others, so each method matches on them.
// The size is a `usize`: beside a kind, a `u8` is packed with it into one number and taken apart again at each call.
#[derive(Clone, Copy)]
pub struct Format {
    pub kind: Kind,
    pub size: usize,
    ghost good: { has_size kind size ≡ true },
}

// The form by its name.
impl TryFrom<FormName> for Format {
    type Error = BankRefusal;

    ghost use Rattle.bank.specs.Answers.{form_by};
    ghost use Rattle.encodings.specs.Shipped.{shipped};
    ghost use Rattle.forms.specs.Formats.{FormatOf};

    ghost try_from_gives = { λ name format. FormatOf (form_by shipped name) format };

    fn try_from(name: FormName) -> Result<Format, BankRefusal> {
        let kind = Kind::try_from(name.letter)?;
        if kind.has_size(name.size) {
            Ok(Format {
                kind,
                size: usize::from(name.size),
            })
        } else {
            Err(BankRefusal::Lacking)
        }
    }
}

// The lowest and the highest number of so many digits.
#[tactic(auto, using(encodings::proofs::Decimal::decimal_limits))]
fn decimal_range(size: usize) -> (i64, i64)
    requires some { 1 ≤ size }
    requires few { size ≤ 15 }
    ensures low { result.0 ≡ negsuc (10 ^ size - 2) }
    ensures high { result.1 ≡ pos (10 ^ size - 1) }
{
    let high = decimal::highest(size);
    (-high, high)
}

impl Format {
    ghost use Rattle.forms.specs.Formats.{form};

    pub(crate) fn width(&self) -> usize
        ensures { result ≡ (form self.now).width }
    {
        match self.kind {
            Kind::Packed => self.size / 2 + 1,
            Kind::Zoned | Kind::Signed | Kind::Unsigned => self.size,
        }
    }

    pub(crate) fn shape(&self) -> Shape
        ensures { Some result ≡ shape_of (Some (form self.now)) }
    {
        let (low, high) = match (self.kind, self.size) {
            (Kind::Zoned | Kind::Packed, size) => decimal_range(size),
            (Kind::Signed, 2) => (i64::from(i16::MIN), i64::from(i16::MAX)),
            (Kind::Signed, _) => (i64::from(i32::MIN), i64::from(i32::MAX)),
            (Kind::Unsigned, 2) => (0, i64::from(u16::MAX)),
            (Kind::Unsigned, _) => (0, i64::from(u32::MAX)),
        };
        Shape {
            width: self.width(),
            low,
            high,
        }
    }

    // The number of a part of the form's width.
    #[tactic(auto, using(encodings::proofs::Digits::zoned_room, encodings::proofs::Shipped::decimal_sizes))]
    pub(crate) fn value(&self, part: &[u8]) -> Option<i64>
        requires { length part.now ≡ (form self.now).width }
        ensures { result ≡ (form self.now).value part.now }
    {
        match self.kind {
            Kind::Zoned => decimal::value::<Zoned>(part),
            Kind::Packed => packed::value(self.size, part),
            Kind::Signed => Some(binary::value(part, i16::from_be_bytes, i32::from_be_bytes)),
            Kind::Unsigned => Some(binary::value(part, u16::from_be_bytes, u32::from_be_bytes)),
        }
    }

    // Puts the image of a number that the form holds into a part of its width.
    pub(crate) fn put(&self, number: i64, part: &mut [u8])
        requires width { length part.old ≡ (form self.now).width }
        requires held { Within (form self.now) number }
        ensures { part.new ≡ (form self.now).image number }
    {
        match self.kind {
            Kind::Zoned => decimal::put::<Zoned>(number, part),
            Kind::Packed => decimal::put::<Packed>(number, part),
            Kind::Signed | Kind::Unsigned => binary::put(number, part),
        }
    }
}
