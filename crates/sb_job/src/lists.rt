//! Parts of lists.
ghost use Rattle.std.specs.Prelude.{◌≡◌, ◌≤◌, ◌+◌, take, drop, length};

/// The elements with the numbers up to one, of which the first has the number 0.
pub fn up_to<T>(list: &[T], upto: u64) -> &[T]
    ensures { result.now ≡ take (upto + 1) list.now }
{
    if upto < list.len() as u64 {
        &list[..upto as usize + 1]
    } else {
        list
    }
}

/// Drops the first elements. No memory is taken.
pub fn drop_first<T: Drop>(list: &mut Vec<T>, count: usize)
    requires { count ≤ length list.old.items }
    ensures { list.new.items ≡ drop count list.old.items }
{
    list.drain(..count);
}
