//! Checked programs.
ghost use Rattle.std.specs.Prelude.{◌≡◌, ◌<◌, ◌+◌, length, map, slice_get, Some, Ok, Err, ◌≢◌, OnOk, IfErr, option_map};
ghost use Rattle.sb_check.specs.Answers.{Answers};
ghost use Rattle.sb_check.specs.CheckedView.{checked_of};
ghost use Rattle.sb_check.specs.declared.check_error.CheckError.TheVariants.{NoMemory};
ghost use Rattle.sb_check.specs.Declarations.{declarations_of, nothing, source_of, service_of, let_of, store_of};
ghost use Rattle.sb_check.specs.Programs as spec;

use crate::check_error::CheckError;
use crate::declarations::{Declared, LetDecl, ServiceDecl, SourceDecl, StoreDecl};
use crate::statements::statement;
use sb_batcher::Batcher;
use sb_grammar::{Program, Statement};
use sb_terms::Fault;
use sb_text::Text;
use sqlite_items::Items;
use std::alloc::Global;

/// A program that is accepted, with what it declares. Sources, services, lets and stores go by their numbers, each kind
/// from 0 in the program's order.
#[derive(Drop)]
pub struct Checked {
    program: Program,
    batcher: Batcher,
    declared: Declared,
}

impl Checked {
    /// The program as a tree.
    pub fn program(&self) -> &Program
        ensures { result.now ≡ (checked_of self.now).program }
    {
        &self.program
    }

    /// Its batches of time.
    pub fn batcher(&self) -> &Batcher
        ensures { result.now ≡ (checked_of self.now).batching }
    {
        &self.batcher
    }

    /// Its sources.
    pub fn sources(&self) -> &[SourceDecl]
        ensures { map source_of result.now ≡ (checked_of self.now).declared.sources }
    {
        self.declared.sources.as_slice()
    }

    /// Its services.
    pub fn services(&self) -> &[ServiceDecl]
        ensures { map service_of result.now ≡ (checked_of self.now).declared.services }
    {
        self.declared.services.as_slice()
    }

    /// Its lets. The stream of each stands over sources, services and the lets before it.
    pub fn lets(&self) -> &[LetDecl]
        ensures { map let_of result.now ≡ (checked_of self.now).declared.lets }
    {
        self.declared.lets.as_slice()
    }

    /// Its stores.
    pub fn stores(&self) -> &[StoreDecl]
        ensures { map store_of result.now ≡ (checked_of self.now).declared.stores }
    {
        self.declared.stores.as_slice()
    }

    /// The name of a store, moved out; the rest is dropped.
    #[tactic(auto, using(crate::proofs::StoresAt::name_at))]
    pub(crate) fn into_name(self, at: usize) -> Text
        requires { at < length (checked_of self).declared.stores }
        ensures { Some result
            ≡ option_map (λ s. s.name) (slice_get (checked_of self).declared.stores at) }
    {
        let Checked {
            program,
            batcher: _,
            declared,
        } = self;
        drop(program);
        let Declared {
            sources,
            services,
            lets,
            mut stores,
        } = declared;
        drop(sources);
        drop(services);
        drop(lets);
        let store = stores.remove(at);
        drop(stores);
        store.into_name()
    }
}

/// The checked program, or its first refusal. The first statement with a fault decides; in it come first names that
/// aren't known, then a name that is declared twice, then the first bad node of its streams and expressions, from the
/// left and parts before the whole, then what a store can't sum. The batch head is statement 1.
pub fn check(alloc: Global, p: Program) -> Result<Checked, CheckError>
    ensures { Answers NoMemory checked_of (spec.check_of p) result }
{
    let Some(batcher) = batcher_of(&p) else {
        drop(p);
        return Err(CheckError::Mistyped { statement: 1 });
    };
    match statements(alloc, p.statements.as_slice()) {
        Ok(declared) => Ok(Checked {
            program: p,
            batcher,
            declared,
        }),
        Err(error) => {
            drop(p);
            Err(error)
        }
    }
}

fn batcher_of(p: &Program) -> Option<Batcher>
    ensures { result ≡ spec.batching p.now }
{
    let length = i64::try_from(p.length).ok()?;
    let from = i64::try_from(p.from).ok()?;
    Batcher::new(length, if p.minus { -from } else { from })
}

fn statements(alloc: Global, trees: &[Statement]) -> Result<Declared, CheckError>
    ensures { Answers NoMemory declarations_of (spec.statements_check 2 trees.now nothing) result }
{
    let mut declared = nothing(alloc);
    let mut number = 1;
    for tree in trees {
        number = next_number(number)?;
        one_more(alloc, number, tree, &mut declared)?;
    }
    Ok(declared)
}

fn nothing(alloc: Global) -> Declared
    ensures { declarations_of result ≡ nothing }
{
    Declared {
        sources: Items::new(alloc),
        services: Items::new(alloc),
        lets: Items::new(alloc),
        stores: Items::new(alloc),
    }
}

// No memory holds 2^32 statements.
fn next_number(number: u32) -> Result<u32, CheckError>
    ensures { Answers NoMemory (λ n. n) (Ok (number + 1)) result }
{
    number.checked_add(1).ok_or(CheckError::NoMemory)
}

fn one_more(
    alloc: Global,
    number: u32,
    tree: &Statement,
    declared: &mut Declared,
) -> Result<(), CheckError>
    ensures ok { OnOk result (spec.statement_check (declarations_of declared.old) tree.now
        ≡ Ok (declarations_of declared.new)) }
    ensures err { IfErr result (λ e. e ≢ NoMemory →
        spec.at_statement number (spec.statement_check (declarations_of declared.old) tree.now)
        ≡ Err e) }
{
    match statement(alloc, tree, declared) {
        Ok(()) => Ok(()),
        Err(fault) => Err(error_at(number, fault)),
    }
}

fn error_at(statement: u32, fault: Fault) -> CheckError
    ensures { result ≡ spec.error_at statement fault }
{
    match fault {
        Fault::NoMemory => CheckError::NoMemory,
        Fault::Unknown => CheckError::Unknown { statement },
        Fault::Twice => CheckError::Twice { statement },
        Fault::Mistyped => CheckError::Mistyped { statement },
        Fault::TooLarge => CheckError::TooLarge { statement },
        Fault::TooWide => CheckError::TooWide { statement },
        Fault::NotAKey => CheckError::NotAKey { statement },
    }
}
