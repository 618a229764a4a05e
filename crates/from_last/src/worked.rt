//! A parting worked by hand.
ghost use Rattle.std.specs.Prelude.{◌≡◌, [], ◌∷◌};
ghost use Rattle.from_last.specs.FromLast.{PayablesFromLast};

use super::from_last::FromLast;
use parting::PartingRule;

/// 10,500 paise by four payables: the first gets the odd one.
pub fn payables_from_last() -> [u64; 4]
    ensures answer { result ≡ 3070 ∷ 2046 ∷ 3769 ∷ 1615 ∷ [] }
    ensures law { PayablesFromLast }
{
    // As `shares` of parting, which is not published since it has a `requires`.
    let mut shares = [0; 4];
    FromLast.part(10_500, &[2_850, 1_900, 3_500, 1_500], &mut shares);
    shares
}
