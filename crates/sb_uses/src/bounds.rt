//! Sums through the bounds of dictionaries alone.
ghost use Rattle.std.specs.Prelude.{◌≡◌, ◌∷◌, [], Some, IfOk};

use sb_laws::{Commuting, Monoid, NoMemory, Semigroup, Undo, fold_list, regroup};
use std::alloc::Global;

/// A list of one element.
pub fn single<T: Drop>(alloc: Global, item: T) -> Result<Vec<T>, NoMemory>
    ensures { IfOk result (λ list. list.items ≡ item ∷ []) }
{
    let mut list = Vec::new(alloc);
    list.push(item)?;
    Ok(list)
}

/// The sum of three elements.
pub fn three<M: Semigroup>(
    alloc: Global,
    m: &M,
    a: M::El,
    b: M::El,
    c: M::El,
) -> Result<Option<M::El>, NoMemory>
    requires a { M.valid m.now a }
    requires b { M.valid m.now b }
    requires c { M.valid m.now c }
    ensures { IfOk result (λ sum. sum ≡ Some (M.add m.now (M.add m.now a b) c)) }
{
    let mut list = Vec::new(alloc);
    list.push(a)?;
    list.push(b)?;
    list.push(c)?;
    fold_list(alloc, m, list)
}

/// The sum of two elements, each in a list of its own.
pub fn regrouped<M: Commuting>(
    alloc: Global,
    m: &M,
    a: M::El,
    b: M::El,
) -> Result<Option<M::El>, NoMemory>
    requires a { M.Semigroup.valid m.now a }
    requires b { M.Semigroup.valid m.now b }
{
    let mut lists = Vec::new(alloc);
    lists.push(single(alloc, a)?)?;
    lists.push(single(alloc, b)?)?;
    regroup(alloc, m, lists)
}

/// A plus that is taken back, on a copy, or refused.
pub fn taken_back<M: Undo>(alloc: Global, m: &M, a: &M::El, b: M::El) -> Result<M::El, NoMemory>
    requires left { M.Semigroup.valid m.now a.now }
    requires right { M.Semigroup.valid m.now b }
    ensures { IfOk result (λ same. same ≡ a.now) }
{
    let mut sum = m.copy(alloc, a)?;
    if let Ok(undone) = m.plus_recorded(alloc, &mut sum, b) {
        m.undo(&mut sum, undone);
    }
    Ok(sum)
}

/// Whether the zero is one.
pub fn is_of_zero<M: Monoid>(alloc: Global, m: &M) -> Result<bool, NoMemory> {
    let zero = m.zero(alloc)?;
    Ok(m.is_zero(&zero))
}
