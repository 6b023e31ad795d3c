//! Which of two slots is current.

ghost use Rattle.std.specs.Prelude.{◌≡◌, Option, option_map};
ghost use Rattle.slot_pair.specs.Choice.{chosen, is_second};

/// The current one of two slots, by their numbers where they are open: whether it is the second, and its number.
pub(crate) fn choose(first: Option<u64>, second: Option<u64>) -> Option<(bool, u64)>
    ensures { result ≡ chosen first second }
{
    match (first, second) {
        (None, None) => None,
        (Some(number), None) => Some((false, number)),
        (None, Some(number)) => Some((true, number)),
        (Some(number), Some(other)) => {
            if number < other {
                Some((true, other))
            } else {
                Some((false, number))
            }
        }
    }
}

/// Whether the current one of two slots is the second, by their numbers where they are open.
pub(crate) fn is_second(first: Option<u64>, second: Option<u64>) -> bool
    ensures { result ≡ is_second first second }
{
    match choose(first, second) {
        Some((second, _)) => second,
        None => false,
    }
}
