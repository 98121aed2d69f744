// The sheet language: the types that its meaning, its steps and its readers share.
// A sheet is a depot's settlement text; a ticket is the bytes of one weighing, worked by a sheet.
#![tactic(auto)]

ghost use Rattle.std.specs.Prelude.{◌≡◌};
ghost use Rattle.bank.specs.Model.{Forms};
ghost use Rattle.language.specs.Numbers.{check_number, fault_number};
ghost use Rattle.language.specs.Rounded.{RoundsRight};
ghost use Rattle.language.specs.Lexemes.{TokensExactly};
ghost use Rattle.language.specs.Acceptance.{AcceptedExactly};
ghost use Rattle.language.specs.Refusals.{RefusedFirst};
ghost use Rattle.language.specs.Following.{Following};
ghost use Rattle.language.specs.Bounds.{Bounds};
ghost use Rattle.language.specs.Tickets.{TicketsKept};

use bank::BankRefusal;

// How an assignment brings a value to its field's places: digits dropped toward zero, or rounded to the nearest, halves away from zero.
#[derive(Clone, Copy, Debug, PartialEq, Eq)]
pub enum Rounding {
    Dropped = 0,
    Nearest = 1,
}

// `<`, `=` and `>` in a condition.
#[derive(Clone, Copy, Debug, PartialEq, Eq)]
pub enum Relation {
    Less = 0,
    Equal = 1,
    Greater = 2,
}

// One step of a translated sheet.
#[derive(Clone, Copy, Debug, PartialEq, Eq)]
pub enum Step {
    // the units of a number in the sheet
    Constant(u64),
    // a field's number
    Field(u8),
    // the zeros appended left and right
    Add(u8, u8),
    Subtract(u8, u8),
    Multiply,
    Negate,
    // the field, how it is brought to the field's places, and the expression's places
    Store(u8, Rounding, u8),
    // the zeros appended left and right, the relation, and the step to go to where it does not hold
    Test(u8, u8, Relation, u16),
    // the step to go to
    Go(u16),
    // an `each` begins
    Open,
    // a row ends: the step to go back to while rows remain
    Next(u16),
    End,
}

// A step with the statement that it belongs to, 0 for `end`: the number that its entries bear.
#[derive(Clone, Copy, Debug, PartialEq, Eq)]
pub struct Line {
    pub statement: u8,
    pub step: Step,
}

// Why a sheet's text is refused: 10 to 19.
#[derive(Clone, Copy, Debug, PartialEq, Eq)]
pub enum Check {
    TextTooLong = 10,
    NoToken = 11,
    Misplaced = 12,
    DeclaredBefore = 13,
    NotDeclared = 14,
    RowMisused = 15,
    FormLacking = 16,
    OutOfBounds = 17,
    TooMany = 18,
    TooFine = 19,
}

impl From<Check> for u8 {
    ghost from_gives = { λ check number. number ≡ check_number check };

    fn from(check: Check) -> u8 {
        check as u8
    }
}

// A text's refusal and the byte place that it stands at.
#[derive(Clone, Copy, Debug, PartialEq, Eq)]
pub struct TextRefusal {
    pub check: Check,
    pub place: usize,
}

// One thing done in the course of a ticket: the statement (0 for `end`), the row (255 outside `each`), and the figure.
// The rules have these numbers, and not an option: answers bear them as they are.
#[derive(Clone, Copy, Debug, PartialEq, Eq)]
pub struct Entry {
    pub statement: u8,
    pub row: u8,
    pub figure: i64,
}

// What ends a course before `end`: 30, 31 and 32. A field's fault bears the bank's refusal.
#[derive(Clone, Copy, Debug, PartialEq, Eq)]
pub enum Fault {
    NoValue(BankRefusal),
    TooLong,
    NotHeld(BankRefusal),
}

impl From<Fault> for u8 {
    ghost from_gives = { λ fault number. number ≡ fault_number fault };

    fn from(fault: Fault) -> u8 {
        match fault {
            Fault::NoValue(_) => 30,
            Fault::TooLong => 31,
            Fault::NotHeld(_) => 32,
        }
    }
}

// A fault with the field that was read or assigned, 255 for none, as the rules number it.
#[derive(Clone, Copy, Debug, PartialEq, Eq)]
pub struct FieldFault {
    pub fault: Fault,
    pub field: u8,
}

// The tokens of a text are exactly its bytes that are not blank, each run read whole.
#[tactic(auto, using(crate::proofs::Tokens::Lexing::tokens_exactly))]
pub fn tokens_stand()
    ensures { TokensExactly }
{}

// A text is accepted exactly when it writes a sheet that is admitted, and as that sheet.
#[tactic(auto, using(crate::proofs::Acceptance::Acceptance::accepted_exactly))]
pub fn acceptance_stands()
    ensures { (forms : Forms) → AcceptedExactly forms }
{}

// A refusal at a token stays the same whatever text follows it, and every text is accepted or refused.
#[tactic(auto, using(crate::proofs::Refusals::Stays::refused_first))]
pub fn refusals_stand()
    ensures { (forms : Forms) → RefusedFirst forms }
{}

// Dropping takes the most whole units, rounding the nearest with halves away from zero.
#[tactic(auto, using(crate::proofs::Rounded::Quotients::rounds_right))]
pub fn rounding_stands()
    ensures { RoundsRight }
{}

// The machine of the steps follows the course of every ticket.
#[tactic(auto, using(crate::proofs::Following::Following::following))]
pub fn following_stands()
    ensures { Following }
{}

// An accepted sheet has at most 4,096 steps, their operands fit the types above, and a course has at most 262,144 entries.
// An answer names its lemma: with `using(..)` the proof did not close.
pub fn bounds_stand()
    ensures { Bounds }
{}

// Fields lie inside the ticket, and a ticket keeps its length while it is worked.
#[tactic(auto, using(crate::proofs::Tickets::Tickets::tickets_kept))]
pub fn tickets_stand()
    ensures { TicketsKept }
{}
