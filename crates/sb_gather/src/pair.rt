//! Pairs added part by part.
ghost use Rattle.std.specs.Prelude.{◌≡◌};

use sb_laws::{Commuting, Monoid, NoMemory, Semigroup, Undo};
use std::alloc::Global;

/// A left and a right part.
#[derive(Drop)]
pub struct Both<X, Y> {
    pub left: X,
    pub right: Y,
}

/// Pairs added part by part; the zero is that of both parts, where both have one. The left part is a semigroup that can
/// take a plus back (`Undo`), so that no pair is copied: a right part that is refused leaves the left as it was.
#[derive(Drop)]
pub struct PairM<A: Undo + Drop, B: Semigroup + Drop> {
    pub left: A,
    pub right: B,
}

impl<A: Undo + Drop, B: Semigroup + Drop> PairM<A, B> {
    /// The dictionary of pairs whose parts are added by these two.
    pub fn new(left: A, right: B) -> PairM<A, B>
        ensures left { result.left ≡ left }
        ensures right { result.right ≡ right }
    {
        PairM { left, right }
    }
}

impl<A: Undo + Drop, B: Semigroup + Drop> Semigroup for PairM<A, B> {
    type El = Both<A::El, B::El>;

    ghost valid = { λ m a. A.valid m.left a.left × B.valid m.right a.right };

    ghost add = { λ m a b. record { left = A.add m.left a.left b.left; right = B.add m.right a.right b.right } };

    ghost keeps_valid = { λ m a b p q. (A.keeps_valid m.left a.left b.left p.0 q.0, B.keeps_valid m.right a.right b.right p.1 q.1) };

    ghost associates = { λ m a b c p q r i. record { left = A.associates m.left a.left b.left c.left p.0 q.0 r.0 i; right = B.associates m.right a.right b.right c.right p.1 q.1 r.1 i } };

    // The left goes first, and is taken back where the right is refused: neither side is copied.
    fn plus(
        &self,
        alloc: Global,
        a: &mut Both<A::El, B::El>,
        b: Both<A::El, B::El>,
    ) -> Result<(), NoMemory> {
        let Both { left, right } = b;
        let undone = self.left.plus_recorded(alloc, &mut a.left, left)?;
        if let Err(refused) = self.right.plus(alloc, &mut a.right, right) {
            self.left.undo(&mut a.left, undone);
            return Err(refused);
        }
        Ok(())
    }

    fn copy(&self, alloc: Global, a: &Both<A::El, B::El>) -> Result<Both<A::El, B::El>, NoMemory> {
        let left = self.left.copy(alloc, &a.left)?;
        let right = self.right.copy(alloc, &a.right)?;
        Ok(Both { left, right })
    }
}

impl<A: Undo + Monoid + Drop, B: Monoid + Drop> Monoid for PairM<A, B> {
    ghost neutral = { λ m. record { left = A.neutral m.left; right = B.neutral m.right } };

    ghost neutral_valid = { λ m. (A.neutral_valid m.left, B.neutral_valid m.right) };

    ghost neutral_left = { λ m a p i. record { left = A.neutral_left m.left a.left p.0 i; right = B.neutral_left m.right a.right p.1 i } };

    ghost neutral_right = { λ m a p i. record { left = A.neutral_right m.left a.left p.0 i; right = B.neutral_right m.right a.right p.1 i } };

    fn zero(&self, alloc: Global) -> Result<Both<A::El, B::El>, NoMemory> {
        let left = self.left.zero(alloc)?;
        let right = self.right.zero(alloc)?;
        Ok(Both { left, right })
    }

    fn is_zero(&self, a: &Both<A::El, B::El>) -> bool {
        self.left.is_zero(&a.left) && self.right.is_zero(&a.right)
    }
}

impl<A: Undo + Commuting + Drop, B: Commuting + Drop> Commuting for PairM<A, B> {
    ghost commutes = { λ m a b p q i. record { left = A.commutes m.left a.left b.left p.0 q.0 i; right = B.commutes m.right a.right b.right p.1 q.1 i } };
}

impl<A: Undo + Drop, B: Undo + Drop> Undo for PairM<A, B> {
    type Undone = Both<A::Undone, B::Undone>;

    ghost takes_back = { λ m both later earlier. A.takes_back m.left both.left later.left earlier.left × B.takes_back m.right both.right later.right earlier.right };

    fn plus_recorded(
        &self,
        alloc: Global,
        a: &mut Both<A::El, B::El>,
        b: Both<A::El, B::El>,
    ) -> Result<Both<A::Undone, B::Undone>, NoMemory> {
        let Both { left, right } = b;
        let left = self.left.plus_recorded(alloc, &mut a.left, left)?;
        match self.right.plus_recorded(alloc, &mut a.right, right) {
            Ok(right) => Ok(Both { left, right }),
            Err(refused) => {
                self.left.undo(&mut a.left, left);
                Err(refused)
            }
        }
    }

    fn undo(&self, a: &mut Both<A::El, B::El>, both: Both<A::Undone, B::Undone>) {
        self.left.undo(&mut a.left, both.left);
        self.right.undo(&mut a.right, both.right);
    }
}
