// The encodings of numbers, zoned, packed and binary: definitions in specs/, their laws in proofs/.
#![tactic(auto)]

ghost use Rattle.std.specs.Prelude.{◌≡◌};
ghost use Rattle.std.specs.Option.{ok_or};
ghost use Rattle.bank.specs.declared.BankRefusal.TheVariants.{Lacking};
ghost use Rattle.encodings.specs.Shipped.{kind_of, has_size};

use bank::BankRefusal;

// The kinds of number form that the shipped bank has.
#[derive(Clone, Copy, Debug, PartialEq, Eq, Hash)]
pub enum Kind {
    Zoned,
    Packed,
    Signed,
    Unsigned,
}

// The kind by its letter.
impl TryFrom<char> for Kind {
    type Error = BankRefusal;

    ghost try_from_gives = { λ letter kind. kind ≡ ok_or (kind_of letter) Lacking };

    fn try_from(letter: char) -> Result<Kind, BankRefusal> {
        match letter {
            'z' => Ok(Kind::Zoned),
            'p' => Ok(Kind::Packed),
            'b' => Ok(Kind::Signed),
            'n' => Ok(Kind::Unsigned),
            _ => Err(BankRefusal::Lacking),
        }
    }
}

impl Kind {
    // Whether the kind has a form of this size: digits of a decimal kind, bytes of a binary one.
    pub fn has_size(self, size: u8) -> bool
        ensures { result ≡ has_size self size }
    {
        match self {
            Kind::Zoned | Kind::Packed => matches!(size, 1..=15),
            Kind::Signed | Kind::Unsigned => matches!(size, 2 | 4),
        }
    }
}
