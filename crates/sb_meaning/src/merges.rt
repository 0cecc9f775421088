//! The stable merge of two streams.
ghost use Rattle.std.specs.Prelude.{◌≡◌, ◌++◌, map, IfOk, OnOk};
ghost use Rattle.sb_meaning.specs.Streams as spec;
ghost use Rattle.sb_meaning.specs.Streams.{at_of};

use crate::stages::At;
use sb_text::NoMemory;
use std::alloc::Global;
use std::collections::VecDeque;

/// Two lists in one, by position; at one position the left values stand first. Both are moved.
pub fn merged(alloc: Global, left: Vec<At>, right: Vec<At>) -> Result<Vec<At>, NoMemory>
    ensures { IfOk result (λ out. map at_of out.items
        ≡ spec.merged (map at_of left.items) (map at_of right.items)) }
{
    let mut out = Vec::new(alloc);
    let mut right = VecDeque::from_vec(right);
    for x in left {
        pass_before(x.0, &mut right, &mut out)?;
        out.push(x)?;
    }
    let mut rest = right.into_vec();
    out.append(&mut rest)?;
    Ok(out)
}

// The right values before a position pass over.
fn pass_before(position: u64, right: &mut VecDeque<At>, out: &mut Vec<At>) -> Result<(), NoMemory>
    ensures passed { OnOk result (map at_of out.new.items ≡ map at_of out.old.items
        ++ spec.before position (map at_of right.old.items)) }
    ensures left { OnOk result (map at_of right.new.items
        ≡ spec.behind position (map at_of right.old.items)) }
{
    for _ in 0..right.len() {
        match right.get(0) {
            Some(next) if next.0 < position => {}
            _ => return Ok(()),
        }
        let Some(next) = right.pop_front() else {
            return Ok(());
        };
        out.push(next)?;
    }
    Ok(())
}
