ghost use Rattle.std.specs.Prelude.{◌≡◌};
ghost use Rattle.record_core.specs.Numbers.{by_number};

/// What has the number, counted from 1, where anything has.
pub(crate) fn by_number<T: Copy>(items: &[T], number: u32) -> Option<T>
    ensures { result ≡ by_number items.now number }
{
    if number == 0 {
        return None;
    }
    items.get(number as usize - 1).copied()
}
