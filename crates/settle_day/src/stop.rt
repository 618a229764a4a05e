//! What ends the work, and how it is printed.
ghost use Rattle.settle_day.specs.Stops.{stop_line};
ghost use Rattle.settle_day.specs.declared.stop.Stop.TheVariants.{Fault};
ghost use Rattle.sheet_kinds.specs.declared.fault.SheetFault.TheVariants.{Row};
ghost use Rattle.std.specs.Prelude.{◌≡◌, Some};

use pool::Refusal;
use sheet_kinds::{RowFault, SheetFault};
use std::fmt;

/// A fault, or a refusal with the sheet and the line of its numbers.
#[derive(Clone, Copy)]
pub enum Stop {
    Fault(SheetFault),
    Refused {
        sheet: u8,
        line: usize,
        refusal: Refusal,
    },
    /// A refusal of opening or closing the day, which no line of a sheet asks for.
    Unclosed(Refusal),
}

impl From<SheetFault> for Stop {
    ghost from_gives = { λ fault stop. stop ≡ Fault fault };

    fn from(fault: SheetFault) -> Stop {
        Stop::Fault(fault)
    }
}

impl From<RowFault> for Stop {
    ghost from_gives = { λ fault stop. stop ≡ Fault (Row fault) };

    fn from(fault: RowFault) -> Stop {
        Stop::Fault(SheetFault::from(fault))
    }
}

impl fmt::Display for Stop {
    ghost output = { λ stop. Some (stop_line stop) };

    fn fmt<W: fmt::Write>(&self, f: &mut fmt::Formatter<W>) -> fmt::Result {
        match self {
            Stop::Fault(fault) => fault.fmt(f),
            Stop::Refused {
                sheet,
                line,
                refusal,
            } => write!(f, "{sheet},{line},0,{}", refusal.number()),
            Stop::Unclosed(refusal) => write!(f, "4,0,0,{}", refusal.number()),
        }
    }
}
