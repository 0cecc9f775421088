//! Chunks and shards of a cut, on given numbers.
use crate::expecting::equal;
use sb_feed::{Cut, KeyBytes};
use sb_text::Text;
use std::test::Fail;

#[test]
fn chunks_and_shards(rt: HostRuntime) -> Result<(), Fail> {
    let Some(cut) = Cut::new(10, 4, 63) else {
        return Err(Fail::new("no cut"));
    };
    equal(&rt, cut.chunk_of(3), 0);
    equal(&rt, cut.chunk_of(4), 1);
    // The published hash of "foobar" is 0x85944171f73967e8; here the store's number has the first four letters.
    let key = KeyBytes {
        store: 0x666f_6f62,
        text: Text::from_string(String::from_str(rt.alloc(), "ar")?),
    };
    equal(&rt, cut.shard_of(&key), 6);
    Ok(())
}
