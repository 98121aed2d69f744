// The bytes of one output line of numbers.
#![tactic(auto)]

ghost use Rattle.std.specs.Prelude.{◌≡◌, ◌/◌, ◌%◌, ◌^◌, IfOk, Some, string_bytes};
ghost use Rattle.std.specs.Option.{option_map_or};
ghost use Rattle.figures.specs.Line.{number_text, line_bytes};
ghost use Rattle.figures.specs.Reading.{LineShows};

use std::alloc::{AllocError, Global};
use std::fmt;

// A number with decimal places, in units of the last one: 6.85 is 685 units at 2 places.
#[derive(Clone, Copy, Debug, PartialEq, Eq)]
pub struct Figure {
    pub units: i64,
    pub places: u8,
}

// What stands before the point of `n` with `places` places, and after it.
#[tactic(auto, using(crate::proofs::Padded::power_positive, crate::proofs::Padded::below_power))]
fn split_at_point(n: u64, places: u8) -> (u64, u64)
    ensures whole { result.0 ≡ n / 10 ^ places }
    ensures fraction { result.1 ≡ n % 10 ^ places }
{
    // A power that does not fit is above every `u64`.
    10u64
        .checked_pow(u32::from(places))
        .map_or((0, n), |power| (n / power, n % power))
}

impl fmt::Display for Figure {
    ghost output = { λ x. Some (number_text x.places x.units) };

    #[tactic(auto, using(crate::proofs::Padded::magnitude_padded))]
    fn fmt<W: fmt::Write>(&self, f: &mut fmt::Formatter<W>) -> fmt::Result {
        let sign = if self.units < 0 { "-" } else { "" };
        let units = self.units.unsigned_abs();
        if self.places == 0 {
            return write!(f, "{sign}{units}");
        }
        let (whole, fraction) = split_at_point(units, self.places);
        let places = usize::from(self.places);
        write!(f, "{sign}{whole}.{fraction:0places$}")
    }
}

// A value, or the mark that stands for none.
#[derive(Clone, Copy)]
struct OrMark<T> {
    value: Option<T>,
    mark: &'static str,
}

impl<T: fmt::Display> fmt::Display for OrMark<T> {
    ghost output = { λ x. option_map_or T.output x.value (Some x.mark.now) };

    fn fmt<W: fmt::Write>(&self, f: &mut fmt::Formatter<W>) -> fmt::Result {
        match &self.value {
            Some(value) => value.fmt(f),
            None => f.write_str(self.mark),
        }
    }
}

// A field's line: its number with these places, or `?` for none, after its row, or `-` for none.
#[derive(Clone, Copy, Debug, PartialEq, Eq)]
pub struct Line {
    pub field: u8,
    pub row: Option<u8>,
    pub number: Option<i64>,
    pub places: u8,
}

impl fmt::Display for Line {
    ghost output = { λ x. Some (line_bytes x.field x.row x.number x.places) };

    fn fmt<W: fmt::Write>(&self, f: &mut fmt::Formatter<W>) -> fmt::Result {
        let Line { field, places, .. } = *self;
        let row = OrMark {
            value: self.row,
            mark: "-",
        };
        let number = OrMark {
            value: self.number.map(|units| Figure { units, places }),
            mark: "?",
        };
        writeln!(f, "{field} {row} {number}")
    }
}

impl Line {
    // The line as `to_string` gives it, with what a reader finds there.
    #[tactic(auto, using(crate::proofs::ReadsBack::line_shows))]
    pub fn to_text(self, heap: Global) -> Result<String, AllocError>
        ensures bytes { IfOk result
            (λ s. string_bytes s ≡ line_bytes self.field self.row self.number self.places) }
        ensures reads { IfOk result
            (λ s. LineShows self.field self.row self.number self.places (string_bytes s)) }
    {
        self.to_string(heap)
    }
}

#[cfg(test)]
mod tests {
    use super::Line;
    use std::test::Fail;

    // No clause can say that there is memory for a text, so a run shows it.
    #[test]
    fn lines_are_made(rt: HostRuntime) -> Result<(), Fail> {
        let line = |field, row, number, places| Line {
            field,
            row,
            number,
            places,
        };
        let cases = [
            (line(3, None, Some(34593), 2), "3 - 345.93\n"),
            (line(4, Some(7), Some(120), 0), "4 7 120\n"),
            (line(0, None, Some(-5), 2), "0 - -0.05\n"),
            (line(63, Some(0), None, 6), "63 0 ?\n"),
        ];
        for (line, text) in cases {
            assert_eq!(rt; line.to_text(rt.alloc())?.as_str(), text);
        }
        Ok(())
    }
}
