//! Lists at places.
ghost use Rattle.std.specs.Prelude.{◌≡◌, ◌<◌, length, map, OnOk, OnErr};
ghost use Rattle.sb_feed.specs.Index.{with_item};

use crate::NoMemory;

/// Puts an item at the end of the list at a place. A refusal leaves the lists as they were.
pub fn push_at<T: Drop>(lists: &mut Vec<Vec<T>>, at: u64, item: T) -> Result<(), NoMemory>
    requires { at < length lists.old.items }
    ensures length { length lists.new.items ≡ length lists.old.items }
    ensures ok { OnOk result (map (λ list. list.items) lists.new.items
        ≡ with_item at item (map (λ list. list.items) lists.old.items)) }
    ensures err { OnErr result (map (λ list. list.items) lists.new.items
        ≡ map (λ list. list.items) lists.old.items) }
{
    let list = &mut lists[at as usize];
    list.push(item)?;
    Ok(())
}
