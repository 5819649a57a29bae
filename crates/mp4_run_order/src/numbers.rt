//! A number and another that may be there.

ghost use Rattle.std.specs.Prelude.{◌≡◌};
ghost use Rattle.mp4_run_order.specs.Implementation.Searches.{is_below, lower_of};

/// Whether it is lower than the other, where there is one.
pub(crate) fn is_below(number: u64, other: Option<u64>) -> bool
    ensures { result ≡ is_below number other }
{
    match other {
        None => true,
        Some(other) => number < other,
    }
}

/// The lower of the two, where there is another.
pub(crate) fn lower_of(number: u64, other: Option<u64>) -> u64
    ensures { result ≡ lower_of number other }
{
    match other {
        Some(other) if other < number => other,
        _ => number,
    }
}
