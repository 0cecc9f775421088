//! Dictionaries with their laws: semigroups, monoids and commuting ones. The terms are those of Algebird
//! (https://github.com/twitter/algebird) and of Summingbird (PVLDB 7(13), 2014).
ghost use Rattle.std.specs.Prelude.{◌≡◌, ◌↔◌, IsTrue, IfOk, OnOk, OnErr};

use std::alloc::{AllocError, Global};

/// Want of memory.
pub type NoMemory = AllocError;

/// A dictionary: which elements are its own, and how two of them are added.
pub trait Semigroup {
    type El: Drop;

    /// Which elements are its own.
    ghost valid: { Self → Self.El → Type 0 };

    /// What `plus` gives.
    ghost add: { Self → Self.El → Self.El → Self.El };

    /// Adds `b` on the right of `a`, in place. A refusal leaves `a` as it was.
    fn plus(&self, alloc: Global, a: &mut Self::El, b: Self::El) -> Result<(), NoMemory>
        requires left { valid self.now a.old }
        requires right { valid self.now b }
        ensures ok { OnOk result (a.new ≡ add self.now a.old b) }
        ensures err { OnErr result (a.new ≡ a.old) };

    /// An equal element.
    fn copy(&self, alloc: Global, a: &Self::El) -> Result<Self::El, NoMemory>
        ensures { IfOk result (λ b. b ≡ a.now) };

    /// The sum of valid elements is valid.
    ghost keeps_valid: { (m : Self) (a b : Self.El) → valid m a → valid m b → valid m (add m a b) };

    /// Any grouping gives the same sum.
    ghost associates: { (m : Self) (a b c : Self.El) → valid m a → valid m b → valid m c → add m (add m a b) c ≡ add m a (add m b c) };
}

/// A dictionary with an element that changes nothing.
pub trait Monoid: Semigroup {
    /// The element that changes nothing, added on either side.
    ghost neutral: { Self → Self.El };

    /// The neutral element.
    fn zero(&self, alloc: Global) -> Result<Self::El, NoMemory>
        ensures { IfOk result (λ zero. zero ≡ neutral self.now) };

    /// Whether `a` is the neutral element.
    fn is_zero(&self, a: &Self::El) -> bool
        requires { Self.valid self.now a.now }
        ensures { IsTrue result ↔ (a.now ≡ neutral self.now) };

    ghost neutral_valid: { (m : Self) → Self.valid m (neutral m) };

    ghost neutral_left: { (m : Self) (a : Self.El) → Self.valid m a → Self.add m (neutral m) a ≡ a };

    ghost neutral_right: { (m : Self) (a : Self.El) → Self.valid m a → Self.add m a (neutral m) ≡ a };
}

/// A dictionary whose plus commutes, so that any order gives the same sum.
pub trait Commuting: Semigroup {
    ghost commutes: { (m : Self) (a b : Self.El) → Self.valid m a → Self.valid m b → Self.add m a b ≡ Self.add m b a };
}
