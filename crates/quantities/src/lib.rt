//! Energy, rates and money: three sorts of quantity, and the named products between them.
#![tactic(auto)]

mod centi_kwh;
mod kwh;
mod limits;
mod money;
mod paise;
mod products;
mod rate;
mod side;
mod sums;

pub use centi_kwh::CentiKwh;
pub use kwh::Kwh;
pub use limits::{LEAST_HZ100, MOST_HZ100, MOST_MONEY, limited};
pub use paise::Paise;
pub use rate::Rate;
pub use side::Side;
