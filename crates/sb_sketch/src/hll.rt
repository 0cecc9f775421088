//! HyperLogLog (Flajolet, Fusy, Gandouet and Meunier, AofA 2007).
ghost use Rattle.std.specs.Prelude.{◌≡◌, ◌≤◌, ◌↔◌, ◌+◌, ◌-◌, ◌%◌, ◌^◌, ℕ, max, IsSome, IfSome, IfOk, OnOk, OnErr};
ghost use lib.Count.{count_leading_zeros};
ghost use Rattle.sb_sketch.specs.Cells.{greatest_of_both, zeros};
ghost use Rattle.sb_sketch.specs.Hll.{AreRegisters, register_of, position_of, registers_of};
ghost use Rattle.sb_sketch.specs.Limits.{least_bits, most_bits};

use crate::cells::cell_at;
use crate::hash::word_of;
use crate::registers::{Registers, greater};
use crate::undone::RegistersUndone;
use sb_laws::{Commuting, Monoid, NoMemory, Semigroup, Undo};
use std::alloc::Global;
use std::marker::Model;

/// HyperLogLog of 2 to the power b registers, of which the greater of each two is taken; the zero has all registers 0.
/// Contracts see the number b.
#[derive(Clone, Copy)]
pub struct HllM {
    bits: u8,
}

impl Model for HllM {
    ghost Value = { ℕ };

    ghost view = { λ m. m.bits };

    ghost invariant = { λ m. (least_bits ≤ m.bits) × (m.bits ≤ most_bits) };

    ghost inverse = { λ b. record { bits = b } };
}

impl HllM {
    /// The dictionary of 2 to the power `b` registers, and none exactly where `b` isn't 4 to 12.
    pub fn new(b: u32) -> Option<HllM>
        ensures number { IfSome result (λ m. m ≡ b) }
        ensures within { IsSome result ↔ ((least_bits ≤ b) × (b ≤ most_bits)) }
    {
        if b < 4 || b > 12 {
            return None;
        }
        Some(HllM { bits: b as u8 })
    }

    /// The number b.
    pub fn bits(&self) -> u8
        ensures number { result ≡ self.now }
        ensures within { (least_bits ≤ result) × (result ≤ most_bits) }
    {
        self.bits
    }

    // Raises the item's register.
    fn raise(&self, registers: &mut Vec<u8>, item: &[u8])
        requires { AreRegisters self.now registers.old.items }
        ensures raised { registers.new.items ≡ greatest_of_both registers.old.items
            (registers_of self.now item.now) }
        ensures valid { AreRegisters self.now registers.new.items }
    {
        let word = word_of(item);
        let bits = u32::from(self.bits);
        let at = (word >> (64 - bits)) as usize;
        let register = cell_at(registers.as_slice(), at);
        registers[at] = greater(register, first_one(word, bits));
    }

    /// Adds one item: `plus` of what `one` gives. Memory is taken only for a short form, which becomes a full list. A refusal
    /// leaves the registers as they were.
    pub fn add_item(
        &self,
        alloc: Global,
        registers: &mut Registers,
        item: &[u8],
    ) -> Result<(), NoMemory>
        requires { AreRegisters self.now registers.old }
        ensures raised { OnOk result (registers.new
            ≡ greatest_of_both registers.old (registers_of self.now item.now)) }
        ensures valid { AreRegisters self.now registers.new }
        ensures err { OnErr result (registers.new ≡ registers.old) }
    {
        let mut raised = registers.take_full(alloc)?;
        self.raise(&mut raised, item);
        *registers = Registers::from_vec(raised);
        Ok(())
    }

    /// The registers of one item, in the short form. No memory is taken.
    pub fn one(&self, item: &[u8]) -> Registers
        ensures sketch { result ≡ registers_of self.now item.now }
        ensures valid { AreRegisters self.now result }
    {
        let word = word_of(item);
        let bits = u32::from(self.bits);
        let at = (word >> (64 - bits)) as u16;
        Registers::one(1 << bits, at, first_one(word, bits))
    }
}

// The place, from 1, of the first one bit of the word after its top bits.
fn first_one(word: u64, bits: u32) -> u8
    requires { (least_bits ≤ bits) × (bits ≤ most_bits) }
    ensures { result ≡ count_leading_zeros (64 - bits) (word % 2 ^ (64 - bits)) + 1 }
{
    let rest = word & ((1 << (64 - bits)) - 1);
    (rest.leading_zeros() - bits) as u8 + 1
}

impl Semigroup for HllM {
    ghost use Rattle.sb_sketch.specs.Hll.{IsPosition};
    ghost use Rattle.sb_sketch.specs.CellLaws.{greatest_within, greatest_associate, cells_kept, cells_associate};

    type El = Registers;

    ghost valid = { λ b a. AreRegisters b a };

    ghost add = { λ _ a b. greatest_of_both a b };

    ghost keeps_valid = { λ b x y p q. cells_kept max (IsPosition b) (greatest_within (65 - b)) (2 ^ b) x y p q };

    ghost associates = { λ _ a b c p q r. cells_associate max greatest_associate a b c };

    // Only where both are short is memory taken.
    fn plus(&self, alloc: Global, a: &mut Registers, b: Registers) -> Result<(), NoMemory>
        requires left { AreRegisters self.now a.old }
        requires right { AreRegisters self.now b }
        ensures greatest { OnOk result (a.new ≡ greatest_of_both a.old b) }
        ensures err { OnErr result (a.new ≡ a.old) }
    {
        let _ = a.add(alloc, b)?;
        Ok(())
    }

    fn copy(&self, alloc: Global, a: &Registers) -> Result<Registers, NoMemory> {
        a.copy(alloc)
    }
}

impl Monoid for HllM {
    ghost use Rattle.std.proofs.Common.{◌∙◌, arith};
    ghost use Rattle.sb_sketch.specs.Hll.{IsPosition};
    ghost use Rattle.sb_sketch.specs.CellLaws.{greatest_commute, cells_commute, zero_within, zero_and_greatest, zeros_are_cells, onto_zeros};

    ghost neutral = { λ b. zeros (2 ^ b) };

    ghost neutral_valid = { λ b. zeros_are_cells (IsPosition b) (zero_within (65 - b)) (2 ^ b) };

    ghost neutral_left = { λ b a p. onto_zeros max (IsPosition b) (λ x _. zero_and_greatest x) (2 ^ b) a p };

    ghost neutral_right = { λ b a p. cells_commute max greatest_commute a (zeros (2 ^ b)) ∙ onto_zeros max (IsPosition b) (λ x _. zero_and_greatest x) (2 ^ b) a p };

    fn zero(&self, alloc: Global) -> Result<Registers, NoMemory> {
        let count = 1 << usize::from(self.bits);
        Ok(Registers::from_vec(Vec::from_elem(alloc, 0, count)?))
    }

    fn is_zero(&self, a: &Registers) -> bool {
        a.are_zeros()
    }
}

impl Commuting for HllM {
    ghost use Rattle.sb_sketch.specs.CellLaws.{greatest_commute, cells_commute};

    ghost commutes = { λ _ a b p q. cells_commute max greatest_commute a b };
}

impl Undo for HllM {
    ghost use Rattle.sb_sketch.specs.Undone.{RegistersBack};

    type Undone = RegistersUndone;

    ghost takes_back = { λ _ undone later earlier. RegistersBack undone later earlier };

    fn plus_recorded(
        &self,
        alloc: Global,
        a: &mut Registers,
        b: Registers,
    ) -> Result<RegistersUndone, NoMemory>
        requires left { AreRegisters self.now a.old }
        requires right { AreRegisters self.now b }
        ensures greatest { OnOk result (a.new ≡ greatest_of_both a.old b) }
        ensures undo { IfOk result (λ undone. RegistersBack undone a.new a.old) }
        ensures err { OnErr result (a.new ≡ a.old) }
    {
        a.add(alloc, b)
    }

    fn undo(&self, a: &mut Registers, undone: RegistersUndone) {
        a.take_back(undone)
    }
}
