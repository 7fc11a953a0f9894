ghost use Rattle.std.specs.Prelude.{◌≡◌, slice_get};

/// The entry of a table at a place, counted from 0.
pub(crate) fn entry<T: Copy>(table: &[T], place: u8) -> Option<T>
    ensures { result ≡ slice_get table.now place }
{
    table.get(usize::from(place)).copied()
}
