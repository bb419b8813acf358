// What is answered to a statement, and how that is printed.
ghost use Rattle.std.specs.Prelude.{◌≡◌, Some};
ghost use Rattle.session.specs.Shown.{answer_text};
ghost use Rattle.session.specs.declared.answer.Declined.TheVariants.{Refused};

use modules::Charge;
use refusals::Refusal;
use std::fmt;

#[derive(Clone, Copy)]
pub enum Answer {
    // The table of a statement is lawful, has so many branches, and stands.
    Table(Result<u64, Refusal>),
    // The root of the charges; none may be above what any charge may be.
    Root(Result<u64, Declined>),
    // What a line has from now on; it may not be above what all totals together may be.
    Total(Result<LineTotal, Declined>),
    Price(Result<Charge, Refusal>),
}

// A line and its exact total.
#[derive(Clone, Copy)]
pub struct LineTotal {
    pub line: u64,
    pub total: u64,
}

// A number of the statement is out of range, or what the statement asks is refused.
#[derive(Clone, Copy)]
pub enum Declined {
    OutOfRange,
    Refused(Refusal),
}

impl From<Refusal> for Declined {
    ghost from_gives = { λ e r. r ≡ Refused e };

    fn from(refusal: Refusal) -> Declined {
        Declined::Refused(refusal)
    }
}

impl fmt::Display for Answer {
    ghost output = { λ a. Some (answer_text a) };

    fn fmt<W: fmt::Write>(&self, f: &mut fmt::Formatter<W>) -> fmt::Result {
        match self {
            Answer::Table(Ok(size)) => write!(f, "table: lawful, {size} branches"),
            Answer::Table(Err(refusal)) => write!(f, "table: refused {refusal}"),
            Answer::Root(Ok(root)) => write!(f, "root: {root}"),
            Answer::Root(Err(Declined::Refused(refusal))) => write!(f, "root: refused {refusal}"),
            Answer::Root(Err(Declined::OutOfRange)) => f.write_str(
                "root: out of range: a charge is above 4294967295",
            ),
            Answer::Total(Ok(LineTotal { line, total })) => write!(
                f,
                "total: line {line} is {total}"
            ),
            Answer::Total(Err(Declined::Refused(refusal))) => write!(f, "total: refused {refusal}"),
            Answer::Total(Err(Declined::OutOfRange)) => f.write_str(
                "total: out of range: the amount is above 2000000000000",
            ),
            Answer::Price(Ok(charge)) => {
                let gross = charge.gross;
                let roundings = charge.roundings;
                let amount = charge.amount;
                write!(
                    f,
                    "price standard: gross {gross}, roundings {roundings}, charge {amount}"
                )
            }
            Answer::Price(Err(refusal)) => write!(f, "price standard: refused {refusal}"),
        }
    }
}
