//! Refusals by a test, and by a number.
ghost use Rattle.std.specs.Prelude.{◌≡◌};
ghost use Rattle.net_rules.specs.Refusal as spec;

use net_rules::Refusal;

pub(crate) fn refused_if(holds: bool, why: Refusal) -> Option<Refusal>
    ensures { result ≡ spec.refused_if holds why }
{
    if holds {
        return Some(why);
    }
    None
}

/// A number is stale that is not that of the open request.
pub(crate) fn stale_number(given: u64, current: Option<u64>) -> Option<Refusal>
    ensures { result ≡ spec.stale_number given current }
{
    match current {
        Some(current) => refused_if(given != current, Refusal::Stale { given, current }),
        None => Some(Refusal::Stale { given, current: 0 }),
    }
}
