//! Days worked by hand.
ghost use Rattle.quantities.specs.Money.{money};
ghost use Rattle.sharing.specs.Worked.{charge_on, seven_charges};
ghost use Rattle.std.specs.Prelude.{◌≡◌, [], ◌∷◌, pos, negsuc, Ok};

use crate::charge::{Charge, Unshared};
use crate::share::share_out;
use parting::LargestRemainder;
use quantities::{Paise, Side};

fn charge(fixed: bool, side: Side, paise: u64) -> Charge
    ensures answer { result ≡ charge_on fixed side paise }
{
    Charge {
        fixed,
        sum: Paise::on(side, paise),
    }
}

fn seven_charges() -> [Charge; 7]
    ensures answer { result ≡ seven_charges }
{
    [
        charge(false, Side::Payable, 2_850),
        charge(false, Side::Payable, 1_900),
        charge(false, Side::Payable, 3_500),
        charge(false, Side::Payable, 1_500),
        charge(false, Side::Receivable, 4_750),
        charge(false, Side::Receivable, 3_500),
        charge(true, Side::Receivable, 3_000),
    ]
}

/// Seven members, of whom the last has a fixed amount: their lines, and the reserve's.
pub fn seven_members() -> ([Paise; 7], Result<Paise, Unshared>)
    ensures lines { result.0 ≡ money (pos 3069) ∷ money (pos 2046) ∷ money (pos 3769) ∷ money (pos 1616) ∷ money (negsuc 4317) ∷ money (negsuc 3181) ∷ money (negsuc 2999) ∷ [] }
    ensures reserve { result.1 ≡ Ok (money (pos 0)) }
{
    let charges = seven_charges();
    // As in `one_paisa`: a function under both would have to repeat all clauses of `share_out`.
    let mut lines = [Paise::NOTHING; 7];
    let reserve = share_out(&LargestRemainder, &charges, &mut lines);
    (lines, reserve)
}

/// One paisa payable alone: its line, and the reserve's.
pub fn one_paisa() -> (Paise, Result<Paise, Unshared>)
    ensures line { result.0 ≡ money (pos 0) }
    ensures reserve { result.1 ≡ Ok (money (pos 0)) }
{
    let charges = [charge(false, Side::Payable, 1)];
    let mut lines = [Paise::NOTHING; 1];
    let reserve = share_out(&LargestRemainder, &charges, &mut lines);
    (lines[0], reserve)
}
