//! A member's reading of one block. Each that exists lies within its limits.
ghost use Rattle.std.specs.Prelude.{ℕ, ◌≤◌};
ghost use Rattle.facts.specs.Kinds.{least_available, most_available};
ghost use Rattle.quantities.specs.Limits.{most_kwh};

use crate::Kind;
use quantities::Kwh;

#[derive(Clone, Copy)]
pub struct Reading {
    pub(crate) kind: Kind,
    pub(crate) scheduled: Kwh,
    pub(crate) metered: Kwh,
    pub(crate) available: Kwh,
    ghost fits: { (scheduled.kwh ≤ most_kwh) × (metered.kwh ≤ most_kwh) × (least_available kind ≤ available.kwh) × (available.kwh ≤ most_available kind) },
}
