//! Days that are alike.
ghost use Rattle.day.specs.Alike.{AlikeDays};

/// Tariffs and rules that answer alike give equal answers and equal records: the contract is that
/// theorem, and the call does nothing.
pub fn alike_days()
    ensures law { AlikeDays }
{}
