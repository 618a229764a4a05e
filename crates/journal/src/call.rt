//! One call on a pool, with its numbers as they came.

#[derive(Clone, Copy, PartialEq)]
pub enum Call {
    Enrol {
        kind: i64,
    },
    Open {
        day: i64,
    },
    GridRow {
        block: i64,
        hz100: i64,
        price: i64,
    },
    Reading {
        member: i64,
        block: i64,
        scheduled: i64,
        metered: i64,
        available: i64,
    },
    Amount {
        member: i64,
        paise: i64,
    },
    /// Lends so many records.
    Close {
        room: usize,
    },
    DropDay,
    PayIn {
        account: i64,
        paise: i64,
    },
    PayOut {
        account: i64,
        paise: i64,
    },
    Account {
        account: i64,
    },
    Cash,
}
