// Parts of slices.
ghost use Rattle.std.specs.Prelude.{◌≡◌, drop, take};

/// The first items of a slice, as far as there are some.
pub(crate) fn front<T>(items: &[T], count: usize) -> &[T]
    ensures { result.now ≡ take count items.now }
{
    if items.len() < count {
        items
    } else {
        &items[..count]
    }
}

/// The items behind the first ones.
pub(crate) fn behind<T>(items: &[T], count: usize) -> &[T]
    ensures { result.now ≡ drop count items.now }
{
    if count < items.len() {
        &items[count..]
    } else {
        &[]
    }
}
