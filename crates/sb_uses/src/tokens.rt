//! Tokens, written.
use crate::expecting::equal;
use sb_tokens::{Keyword, Symbol, write_keyword, write_name, write_symbol};
use std::test::Fail;

#[test]
fn tokens_are_written(rt: HostRuntime) -> Result<(), Fail> {
    let mut out = Vec::new(rt.alloc());
    write_keyword(rt.alloc(), &mut out, Keyword::SumByKey)?;
    write_symbol(rt.alloc(), &mut out, Symbol::AtMost)?;
    write_name(rt.alloc(), &mut out, b"a_1")?;
    equal(&rt, out.as_slice(), b"sumByKey<=a_1".as_slice());
    let text = Keyword::LeftJoin.to_text(rt.alloc())?;
    equal(&rt, text.as_bytes(), b"leftJoin".as_slice());
    Ok(())
}
