// Banks of number forms: what a bank answers, and two banks side by side.
#![tactic(auto)]

ghost use Rattle.std.specs.Prelude.{◌≡◌, ◌&&◌, int_le};
ghost use Rattle.bank.specs.Model.{Forms, Lawful, beside, beside_lawful};
ghost use Rattle.bank.specs.Answers.{form_by, refusal_number, shape_of, read_by, Writes};
ghost use Rattle.bank.specs.ReadsBack.{ReadsBack};

// Why a bank does not read or write.
#[derive(Clone, Copy, Debug, PartialEq, Eq, Hash)]
pub enum BankRefusal {
    Lacking = 1,
    WrongWidth = 2,
    OutOfRange = 3,
    NoValue = 4,
}

// The number that a refusal is answered by.
impl From<BankRefusal> for u8 {
    ghost from_gives = { λ refusal number. number ≡ refusal_number refusal };

    fn from(refusal: BankRefusal) -> u8 {
        refusal as u8
    }
}

// What a form goes by: a letter and a size.
#[derive(Clone, Copy, Debug, PartialEq, Eq, Hash)]
pub struct FormName {
    pub letter: char,
    pub size: u8,
}

// A form as a caller sees it: its width in bytes, and the lowest and highest number that it holds.
#[derive(Clone, Copy, Debug, PartialEq, Eq, Hash)]
pub struct Shape {
    pub width: usize,
    pub low: i64,
    pub high: i64,
}

impl Shape {
    // Whether the number is in the range.
    pub fn holds(&self, number: i64) -> bool
        ensures { result ≡ (int_le self.now.low number && int_le number self.now.high) }
    {
        (self.low..=self.high).contains(&number)
    }
}

// A bank has a number form by a name, or lacks it, always alike.
// `forms` is what it means; its calls answer by that alone.
pub trait Bank {
    ghost forms: { Self → Forms };

    // Width and range of a form, or none where the bank lacks it.
    fn shape(&self, name: FormName) -> Option<Shape>
        ensures { result ≡ shape_of (form_by (forms self.now) name) };

    // The number that the part stands for.
    fn read(&self, name: FormName, part: &[u8]) -> Result<i64, BankRefusal>
        ensures { result ≡ read_by (form_by (forms self.now) name) part.now };

    // Puts the number's image into the part; a refusal leaves the part as it was.
    fn write(&self, name: FormName, number: i64, part: &mut [u8]) -> Result<(), BankRefusal>
        ensures { Writes (form_by (forms self.now) name) number part.old part.new result };

    ghost lawful: { (b : Self) → Lawful (forms b) };
}

// Two banks side by side: the left is asked first, the right has what the left lacks.
// They are of two types, so that each call is written for both.
#[derive(Drop)]
pub struct Beside<L, R> {
    pub left: L,
    pub right: R,
}

impl<L: Bank, R: Bank> Bank for Beside<L, R> {
    ghost forms = { λ b. beside (L.Bank.forms b.left) (R.Bank.forms b.right) };

    ghost lawful = { λ b. beside_lawful _ _ (L.Bank.lawful b.left) (R.Bank.lawful b.right) };

    fn shape(&self, name: FormName) -> Option<Shape> {
        self.left.shape(name).or_else(|| self.right.shape(name))
    }

    fn read(&self, name: FormName, part: &[u8]) -> Result<i64, BankRefusal> {
        match self.left.shape(name) {
            Some(_) => self.left.read(name, part),
            None => self.right.read(name, part),
        }
    }

    fn write(&self, name: FormName, number: i64, part: &mut [u8]) -> Result<(), BankRefusal> {
        match self.left.shape(name) {
            Some(_) => self.left.write(name, number, part),
            None => self.right.write(name, number, part),
        }
    }
}

// In every bank, a number that was written is read back as that number.
#[tactic(auto, using(crate::proofs::ReadsBack::reads_back))]
pub fn written_reads_back()
    ensures { ReadsBack }
{}
