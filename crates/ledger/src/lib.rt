// The six calls, their answers, and the ledger that says what every list of calls answers.
#![tactic(auto)]

ghost use Rattle.std.specs.Prelude.{◌≡◌, ℕ, List};
ghost use Rattle.bank.specs.Model.{Forms};
ghost use Rattle.ledger.specs.Standing.{StandsAlways, BearAlways};
ghost use Rattle.ledger.specs.Numbers.{refusal_number};
ghost use Rattle.ledger.specs.Laws.{Telling, Changes, Stopping, Ending, Refusals, Joins};

use bank::BankRefusal;
use language::{Entry, FieldFault, TextRefusal};

// A part of lent bytes: where it starts and how long it is, cut where the bytes end.
#[derive(Clone, Copy, Debug, PartialEq, Eq)]
pub struct Place {
    pub start: usize,
    pub length: usize,
}

// A field outside the rows goes by row 255, as callers number it.
#[derive(Clone, Copy, Debug, PartialEq, Eq)]
pub enum Call {
    // reads a sheet's text, and forgets the ticket
    Load(Place),
    // takes a ticket's bytes
    Lay(Place),
    // writes a number into a field: field, row, number in units of its last place
    Enter(u8, u8, i64),
    // works the ticket by at most so many steps
    Work(u32),
    // ends a run without effect
    Drop,
    // answers a field's number: field, row
    Read(u8, u8),
}

// Why a call is refused: 10 to 19 for a sheet's text, and 20 to 28.
#[derive(Clone, Copy, Debug, PartialEq, Eq)]
pub enum CallRefusal {
    Text(TextRefusal),
    NoSheet,
    RunOpen,
    WrongLength,
    NoTicket,
    NoField,
    NotHeld(BankRefusal),
    NoValue(BankRefusal),
    NoRun,
    BadBudget,
}

#[derive(Clone, Copy, Debug, PartialEq, Eq)]
pub enum Answer {
    Loaded,
    Laid,
    Entered,
    // the run ended with `end`: how many entries its course has
    Finished(u32),
    // the budget is spent: how many entries so far, and the last one
    Stopped(u32, Entry),
    // the run ended with a fault: how many entries, the last one, and the fault with its field
    Faulted(u32, Entry, FieldFault),
    Dropped,
    Number(i64),
    Refused(CallRefusal),
}

impl From<CallRefusal> for u8 {
    ghost from_gives = { λ refusal number. number ≡ refusal_number refusal };

    fn from(refusal: CallRefusal) -> u8 {
        match refusal {
            CallRefusal::Text(text) => u8::from(text.check),
            CallRefusal::NoSheet => 20,
            CallRefusal::RunOpen => 21,
            CallRefusal::WrongLength => 22,
            CallRefusal::NoTicket => 23,
            CallRefusal::NoField => 24,
            CallRefusal::NotHeld(_) => 25,
            CallRefusal::NoValue(_) => 26,
            CallRefusal::NoRun => 27,
            CallRefusal::BadBudget => 28,
        }
    }
}

// What changes the ticket: a load unless a run is open, a lay that is laid, an entry that is entered, a work that finishes.
#[tactic(auto, using(crate::proofs::Laws::Changes::changes))]
pub fn changes_stand()
    ensures { (forms : Forms) (lent : List ℕ) → Changes forms lent }
{}

// The ledger's run is the one that the calls and their answers tell of.
#[tactic(auto, using(crate::proofs::Laws::Runs::telling))]
pub fn runs_stand()
    ensures { (forms : Forms) (lent : List ℕ) → Telling forms lent }
{}

// An accepted work stops exactly when its run's budgets add up to less than the course's length.
#[tactic(auto, using(crate::proofs::Laws::Works::stopping))]
pub fn stops_stand()
    ensures { (forms : Forms) (lent : List ℕ) → Stopping forms lent }
{}

// An accepted work that does not stop is answered as the course ends, and leaves the ticket so.
#[tactic(auto, using(crate::proofs::Laws::Works::ending))]
pub fn endings_stand()
    ensures { (forms : Forms) (lent : List ℕ) → Ending forms lent }
{}

// A refused call leaves the ledger as it was; a refused text leaves no sheet, no ticket and no run.
#[tactic(auto, using(crate::proofs::Laws::Refusals::refusals))]
pub fn refusals_stand()
    ensures { (forms : Forms) (lent : List ℕ) → Refusals forms lent }
{}

// One list of calls after another is answered as the two together, and a list has as many answers as calls.
#[tactic(auto, using(crate::proofs::Laws::Lists::joins))]
pub fn lists_join()
    ensures { (forms : Forms) (lent : List ℕ) → Joins forms lent }
{}

// After every list of calls a sheet was read from a text, a ticket fits the sheet, and a run is on that ticket and not at its end.
#[tactic(auto, using(crate::proofs::Laws::Standing::stands_always))]
pub fn ledgers_stand()
    ensures { StandsAlways }
{}

// A refused enter bears the bank's refusal 3, and a refused read its 4.
#[tactic(auto, using(crate::proofs::Laws::Bearing::bear_always))]
pub fn refusals_bear()
    ensures { BearAlways }
{}
