//! Partings worked by hand.
ghost use Rattle.std.specs.Prelude.{◌≡◌, [], ◌∷◌};
ghost use Rattle.parting.specs.Examples.{PayablesByLargestRemainder, TenByLargestRemainder, TenByRunning};
ghost use Rattle.parting.specs.Rule.{Asked};

use super::largest_remainder::LargestRemainder;
use super::rule::PartingRule;
use super::running::Running;

// The shares of a sum by as many weights as are written out.
fn shares<R: PartingRule, const N: usize>(rule: &R, amount: u64, weights: &[u64; N]) -> [u64; N]
    requires { Asked amount weights.now }
    ensures answer { result ≡ R.PartingRule.shares rule.now amount weights.now }
{
    let mut shares = [0; N];
    rule.part(amount, weights, &mut shares);
    shares
}

/// Ten paise by equal weights: the first gets the odd one.
pub fn ten_by_largest_remainder() -> [u64; 3]
    ensures answer { result ≡ 4 ∷ 3 ∷ 3 ∷ [] }
    ensures law { TenByLargestRemainder }
{
    shares(&LargestRemainder, 10, &[1, 1, 1])
}

/// Ten paise by equal weights: the last gets the odd one.
pub fn ten_by_running() -> [u64; 3]
    ensures answer { result ≡ 3 ∷ 3 ∷ 4 ∷ [] }
    ensures law { TenByRunning }
{
    shares(&Running, 10, &[1, 1, 1])
}

/// 10,500 paise by four payables: the fourth has the largest remainder and gets the odd one.
pub fn payables_by_largest_remainder() -> [u64; 4]
    ensures answer { result ≡ 3069 ∷ 2046 ∷ 3769 ∷ 1616 ∷ [] }
    ensures law { PayablesByLargestRemainder }
{
    shares(&LargestRemainder, 10_500, &[2_850, 1_900, 3_500, 1_500])
}
