//! The registers of a HyperLogLog.
ghost use Rattle.std.specs.Prelude.{◌≡◌, ◌<◌, ◌↔◌, ◌≢◌, ◌==◌, ℕ, List, length, max, slice_get, slice_set, slice_index_or, Some, None, IsTrue, IfOk, IfSome, OnOk, OnErr, if◌then◌else◌};
ghost use Rattle.sb_sketch.specs.Cells.{greatest_of_both, zeros, one_cell};

use crate::cells::cell_at;
use crate::undone::RegistersUndone;
use sb_laws::NoMemory;
use std::alloc::Global;
use std::marker::Model;

/// The registers of a HyperLogLog, from number 0. Contracts see the full list, whatever the form.
#[derive(Drop)]
pub struct Registers {
    form: Form,
}

#[derive(Drop)]
enum Form {
    Full(Vec<u8>),
    // This many registers, all 0 but for one.
    One { count: u16, at: u16, register: u8 },
}

impl Model for Registers {
    ghost use Rattle.std.specs.Prelude.{ℕ, List};

    ghost Value = { List ℕ };

    ghost use Rattle.sb_sketch.specs.Forms.{registers_of};

    ghost view = { λ registers. registers_of registers.form };
}

impl Registers {
    /// The registers of a full list, in its room.
    pub fn from_vec(registers: Vec<u8>) -> Registers
        ensures { result ≡ registers.items }
    {
        Registers {
            form: Form::Full(registers),
        }
    }

    /// The number of registers.
    pub fn len(&self) -> usize
        ensures { result ≡ length self.now }
    {
        match &self.form {
            Form::Full(registers) => registers.len(),
            Form::One { count, .. } => usize::from(*count),
        }
    }

    /// The register at a place.
    pub fn get(&self, at: usize) -> u8
        requires { at < length self.now }
        ensures { slice_get self.now at ≡ Some result }
    {
        match &self.form {
            Form::Full(registers) => cell_at(registers.as_slice(), at),
            Form::One {
                at: own,
                register,
                ..
            } => {
                if usize::from(*own) == at {
                    *register
                } else {
                    0
                }
            }
        }
    }

    /// The full list, lent where it is there.
    pub fn as_slice(&self) -> Option<&[u8]>
        ensures { IfSome result (λ registers. registers.now ≡ self.now) }
    {
        match &self.form {
            Form::Full(registers) => Some(registers.as_slice()),
            Form::One { .. } => None,
        }
    }

    /// A new full list.
    pub fn to_vec(&self, alloc: Global) -> Result<Vec<u8>, NoMemory>
        ensures { IfOk result (λ registers. registers.items ≡ self.now) }
    {
        match &self.form {
            Form::Full(registers) => Vec::from_slice(alloc, registers.as_slice()),
            Form::One {
                count,
                at,
                register,
            } => all_registers(alloc, *count, *at, *register),
        }
    }
}

impl Registers {
    /// The short form: this many registers, all 0 but for the one at this place.
    pub(crate) fn one(count: u16, at: u16, register: u8) -> Registers
        ensures { result ≡ one_cell count at register }
    {
        Registers {
            form: Form::One {
                count,
                at,
                register,
            },
        }
    }

    /// Whether all registers are 0.
    pub(crate) fn are_zeros(&self) -> bool
        ensures { IsTrue result ↔ (self.now ≡ zeros (length self.now)) }
    {
        match &self.form {
            Form::Full(registers) => registers.iter().all(|&register| register == 0),
            Form::One {
                count,
                at,
                register,
            } => is_nothing(*count, *at, *register),
        }
    }

    /// Equal registers, in the same form.
    pub fn copy(&self, alloc: Global) -> Result<Registers, NoMemory>
        ensures { IfOk result (λ registers. registers ≡ self.now) }
    {
        match &self.form {
            Form::Full(registers) => Ok(Registers::from_vec(Vec::from_slice(
                alloc,
                registers.as_slice(),
            )?)),
            Form::One {
                count,
                at,
                register,
            } => Ok(Registers::one(*count, *at, *register)),
        }
    }

    /// Takes the full list out, which takes memory for a short form alone.
    pub(crate) fn take_full(&mut self, alloc: Global) -> Result<Vec<u8>, NoMemory>
        ensures ok { IfOk result (λ registers. registers.items ≡ self.old) }
        ensures err { OnErr result (self.new ≡ self.old) }
    {
        match &mut self.form {
            Form::Full(registers) => Ok(std::mem::replace(registers, Vec::new(alloc))),
            Form::One {
                count,
                at,
                register,
            } => all_registers(alloc, *count, *at, *register),
        }
    }
}

impl Registers {
    ghost use Rattle.sb_sketch.specs.Undone.{RegistersBack};

    /// Takes the greater of each two of as many registers, and keeps what takes that back. A refusal leaves the registers as
    /// they were.
    ///
    /// Memory is taken only where both are short, for the full list. A full list changes in place by a short form on its
    /// right, in one step; else the greater ones are put in the room of the full one on the right, and the left one is kept.
    pub(crate) fn add(
        &mut self,
        alloc: Global,
        more: Registers,
    ) -> Result<RegistersUndone, NoMemory>
        requires { length self.old ≡ length more }
        ensures ok { OnOk result (self.new ≡ greatest_of_both self.old more) }
        ensures undo { IfOk result (λ undone. RegistersBack undone self.new self.old) }
        ensures err { OnErr result (self.new ≡ self.old) }
    {
        match more.form {
            Form::Full(raised) => Ok(self.add_into(raised)),
            Form::One {
                count,
                at,
                register,
            } => self.add_one(alloc, count, at, register),
        }
    }

    // Puts the greater ones in the room of a full list, and keeps the left registers.
    fn add_into(&mut self, raised: Vec<u8>) -> RegistersUndone
        requires { length raised.items ≡ length self.old }
        ensures greatest { self.new ≡ greatest_of_both self.old raised.items }
        ensures undo { RegistersBack result self.new self.old }
    {
        let mut raised = raised;
        self.raise(&mut raised);
        RegistersUndone::Registers(std::mem::replace(self, Registers::from_vec(raised)))
    }

    // Raises the register in place, or makes a full list of it.
    fn add_one(
        &mut self,
        alloc: Global,
        count: u16,
        at: u16,
        register: u8,
    ) -> Result<RegistersUndone, NoMemory>
        requires { length self.old ≡ count }
        ensures ok { OnOk result (self.new
            ≡ greatest_of_both self.old (one_cell count at register)) }
        ensures undo { IfOk result (λ undone. RegistersBack undone self.new self.old) }
        ensures err { OnErr result (self.new ≡ self.old) }
    {
        if let Some(undone) = self.raise_in_place(at, register) {
            return Ok(undone);
        }
        let raised = all_registers(alloc, count, at, register)?;
        Ok(self.add_into(raised))
    }

    // Raises a register of a full list. In a short form nothing changes.
    fn raise_in_place(&mut self, at: u16, register: u8) -> Option<RegistersUndone>
        ensures raised { IfSome result (λ _. self.new
            ≡ greatest_of_both self.old (one_cell (length self.old) at register)) }
        ensures undo { IfSome result (λ undone. RegistersBack undone self.new self.old) }
        ensures none { result ≡ None → self.new ≡ self.old }
    {
        match &mut self.form {
            Form::Full(registers) => Some(raise_one(registers, at, register)),
            Form::One { .. } => None,
        }
    }

    // Puts the greater of each register and that of a full list into that.
    fn raise(&self, raised: &mut Vec<u8>)
        requires { length raised.old.items ≡ length self.now }
        ensures { raised.new.items ≡ greatest_of_both self.now raised.old.items }
    {
        match &self.form {
            Form::Full(registers) => raise_to_left(registers.as_slice(), raised),
            Form::One { at, register, .. } => {
                let _ = raise_one(raised, *at, *register);
            }
        }
    }

    /// Takes an addition back. No memory is taken.
    pub(crate) fn take_back(&mut self, undone: RegistersUndone)
        ensures { (earlier : List ℕ) → RegistersBack undone self.old earlier
            → self.new ≡ earlier }
    {
        match undone {
            RegistersUndone::Registers(registers) => *self = registers,
            RegistersUndone::Raised(at, register) => self.lower(at, register),
            RegistersUndone::Nothing => {}
        }
    }

    // Puts back what stood in a register that was raised. The one register of a short form is the only one above 0.
    fn lower(&mut self, place: u16, register: u8)
        ensures { (earlier : List ℕ) → place < length self.old
            → slice_index_or self.old place 0 ≢ 0 → slice_set self.old place register ≡ earlier
            → self.new ≡ earlier }
    {
        match &mut self.form {
            Form::Full(registers) => put_register(registers, place, register),
            Form::One {
                at,
                register: own,
                ..
            } => put_own(*at, own, place, register),
        }
    }
}

// The register at a place, where all are 0 but for one.
fn register_in(_count: u16, own: u16, register: u8, at: usize) -> u8
    ensures { at < _count → slice_get (one_cell _count own register) at ≡ Some result }
{
    if usize::from(own) == at { register } else { 0 }
}

// Whether that one is 0 too, or isn't there.
fn is_nothing(count: u16, at: u16, register: u8) -> bool
    ensures { IsTrue result ↔ (one_cell count at register ≡ zeros count) }
{
    register == 0 || at >= count
}

fn put_register(registers: &mut Vec<u8>, place: u16, register: u8)
    ensures { registers.new.items ≡ slice_set registers.old.items place register }
{
    let place = usize::from(place);
    if place < registers.len() {
        registers[place] = register;
    }
}

// Puts a register where its place is the one at hand.
fn put_own(at: u16, own: &mut u8, place: u16, register: u8)
    ensures { own.new ≡ (if at == place then register else own.old) }
{
    if at == place {
        *own = register;
    }
}

ghost use Rattle.sb_sketch.specs.Undone.{RegistersBack};

// Raises the register at a place, if it is there.
fn raise_one(registers: &mut Vec<u8>, at: u16, register: u8) -> RegistersUndone
    ensures raised { registers.new.items ≡ greatest_of_both registers.old.items
        (one_cell (length registers.old.items) at register) }
    ensures undo { RegistersBack result registers.new.items registers.old.items }
{
    let place = usize::from(at);
    if place >= registers.len() {
        return RegistersUndone::Nothing;
    }
    let earlier = registers[place];
    if register <= earlier {
        return RegistersUndone::Nothing;
    }
    registers[place] = register;
    RegistersUndone::Raised(at, earlier)
}

// All registers, with one that isn't 0.
fn all_registers(alloc: Global, count: u16, at: u16, register: u8) -> Result<Vec<u8>, NoMemory>
    ensures { IfOk result (λ registers. registers.items ≡ one_cell count at register) }
{
    let mut registers = Vec::from_elem(alloc, 0, usize::from(count))?;
    put_register(&mut registers, at, register);
    Ok(registers)
}

// Puts the greater of each register of the left and that of the right into the right.
fn raise_to_left(left: &[u8], right: &mut Vec<u8>)
    requires { length right.old.items ≡ length left.now }
    ensures { right.new.items ≡ greatest_of_both left.now right.old.items }
{
    for (at, register) in left.iter().enumerate() {
        let raised = greater(*register, cell_at(right.as_slice(), at));
        right[at] = raised;
    }
}

/// The greater of two registers.
pub fn greater(a: u8, b: u8) -> u8
    ensures { result ≡ max a b }
{
    if a < b { b } else { a }
}
