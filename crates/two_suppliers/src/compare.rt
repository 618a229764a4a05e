//! Two journals of the same calls, entry by entry.
use day::{RECORDS, Record};
use journal::{Call, Entry, Reply};
use pool::{ACCOUNTS, Account, Accounts};
use quantities::Paise;
use std::fmt;

/// An entry to begin a journal with.
pub fn blank() -> Entry {
    Entry {
        call: Call::Cash,
        answer: Ok(Reply::Done),
        records: [Record::default(); RECORDS],
        accounts: Accounts {
            table: [Account::default(); ACCOUNTS],
        },
        cash: Paise::default(),
    }
}

/// How many calls were accepted and refused, and how many days were closed.
#[derive(Clone, Copy)]
pub struct Tally {
    accepted: usize,
    refused: usize,
    closed: usize,
}

impl fmt::Display for Tally {
    fn fmt<W: fmt::Write>(&self, f: &mut fmt::Formatter<W>) -> fmt::Result {
        write!(
            f,
            "accepted {}, refused {}, days closed {}",
            self.accepted, self.refused, self.closed
        )
    }
}

pub fn tally_of(journal: &[Entry]) -> Tally {
    Tally {
        accepted: journal.iter().filter(|entry| entry.answer.is_ok()).count(),
        refused: journal.iter().filter(|entry| entry.answer.is_err()).count(),
        closed: journal.iter().filter(|entry| entry.closes_day()).count(),
    }
}

/// How many entries of two journals were compared, and in how many each part was equal.
#[derive(Clone, Copy)]
pub struct Agreement {
    entries: usize,
    answers: usize,
    records: usize,
    accounts: usize,
}

impl fmt::Display for Agreement {
    fn fmt<W: fmt::Write>(&self, f: &mut fmt::Formatter<W>) -> fmt::Result {
        writeln!(f, "entries compared: {}", self.entries)?;
        writeln!(f, "equal in answers: {}", self.answers)?;
        writeln!(f, "equal in records: {}", self.records)?;
        write!(f, "equal in accounts and cash: {}", self.accounts)
    }
}

/// In how many entries of two journals, place by place, the test holds.
fn equal_in<F: Fn(&Entry, &Entry) -> bool>(first: &[Entry], second: &[Entry], same: F) -> usize
    requires { F.IsAlwaysCallable same }
{
    first.iter().zip(second).filter(|(a, b)| same(a, b)).count()
}

pub fn agreement_of(first: &[Entry], second: &[Entry]) -> Agreement {
    Agreement {
        entries: first.len().min(second.len()),
        answers: equal_in(first, second, |a, b| a.answer == b.answer),
        records: equal_in(first, second, |a, b| a.records == b.records),
        accounts: equal_in(
            first,
            second,
            |a, b| a.accounts == b.accounts && a.cash == b.cash,
        ),
    }
}
