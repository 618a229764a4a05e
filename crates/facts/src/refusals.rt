//! What facts given as plain numbers are refused with.
ghost use Rattle.facts.specs.Refusals.{refusal_number, refusal_words};
ghost use Rattle.std.specs.Prelude.{◌≡◌, pos, Some};

use crate::UnknownKind;
use std::error::Error;
use std::fmt;

#[derive(Clone, Copy, Debug, PartialEq, Eq)]
pub enum FactsRefusal {
    /// The kind is none of those that deviate.
    UnknownKind = 3,
    /// Another number is outside its limit.
    OutsideLimit = 4,
}

impl FactsRefusal {
    pub fn number(self) -> i64
        ensures answer { result ≡ pos (refusal_number self) }
    {
        self as i64
    }

    fn words(self) -> &'static str
        ensures answer { result.now ≡ refusal_words self }
    {
        match self {
            FactsRefusal::UnknownKind => "the kind is none of those that deviate",
            FactsRefusal::OutsideLimit => "a number is outside its limit",
        }
    }
}

impl fmt::Display for FactsRefusal {
    ghost output = { λ e. Some (refusal_words e) };

    fn fmt<W: fmt::Write>(&self, f: &mut fmt::Formatter<W>) -> fmt::Result {
        self.words().fmt(f)
    }
}

impl Error for FactsRefusal {}

impl From<UnknownKind> for FactsRefusal {
    ghost use Rattle.facts.specs.declared.refusals.FactsRefusal.TheVariants.{UnknownKind};

    ghost from_gives = { λ _ refusal. refusal ≡ UnknownKind };

    fn from(_kind: UnknownKind) -> FactsRefusal {
        Self::UnknownKind
    }
}
