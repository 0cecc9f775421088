//! The services of a command.
ghost use Rattle.std.specs.Prelude.{◌≡◌, [], ◌∷◌, ◌++◌, true, List, Result, Some, map, option_map, IfErr, OnOk, is_some};
ghost use Rattle.sb_check.specs.CheckedView.{checked_of};
ghost use Rattle.sb_check.specs.Declarations.{Service as Said, service_of};
ghost use Rattle.sb_check.specs.Names.{found};
ghost use Rattle.sb_io.specs.Shelf.{Fetches};
ghost use Rattle.sb_service.specs.Rows.{Rows};
ghost use Rattle.sb_service.specs.Views.{view_service};
ghost use Rattle.sb_words.specs.declared.command.Command.{Command};
ghost use Rattle.sb_load.specs.Causes.{IsCausedBy, Leaves};
ghost use Rattle.sb_load.specs.Commands.{file_named, services, files_of, has_services};
ghost use Rattle.sb_load.specs.Inputs.{LoadsEach, LoadsFile, LoadsService, LoadsServices, ReadsService, has_unknown};
ghost use Rattle.sb_load.specs.Limits.{most_service_bytes};
ghost use Rattle.sb_load.specs.Refusals.{cause_of};
ghost use Rattle.sb_load.specs.Steps.{Advances, AreBytes, IsBehind, IsCausedAt, IsRefusedAt, TellsAll};
ghost use Rattle.sb_load.specs.declared.refusal.Refusal.{Refusal as Told};
ghost use Rattle.sb_load.specs.declared.refusal.Refusal.TheVariants as refused;
ghost use Rattle.sb_load.specs.declared.refusal.Which.TheVariants as which;

use crate::files::fetch;
use crate::name::Name;
use crate::refusal::{Refusal, Which};
use sb_check::{Checked, ServiceDecl};
use sb_io::Shelf;
use sb_service::{Service, ServiceError, read_service};
use sb_text::Text;
use std::alloc::Global;

const LIMIT: u64 = 16_777_216;

/// The services of a program in its order, each from the file that the words give it. A word that gives another service is refused first.
pub fn fetch_services<H: Shelf>(
    alloc: Global,
    shelf: &mut H,
    files: &[(Text, Text)],
    program: &Checked,
) -> Result<Vec<Service>, Refusal>
    ensures read { TellsAll (LoadsServices (H.content shelf.old) true files.now
        (checked_of program.now).declared) (λ all. map view_service all.items) result }
    ensures frame { (command : Command) → files_of command ≡ files.now
        → Leaves command (H.content shelf.old) (H.content shelf.new) (H.faults shelf.old)
        (H.faults shelf.new) }
    ensures cause { (command : Command) → files_of command ≡ files.now → has_services command ≡ true
        → IfErr result (λ refusal. IsCausedBy command (H.faults shelf.old) (H.faults shelf.new)
        (cause_of refusal)) }
{
    if has_unknown(program.services(), files) {
        return Err(Refusal::ServiceUnknown);
    }
    fetch_each(alloc, shelf, files, program.services())
}

fn fetch_each<H: Shelf>(
    alloc: Global,
    shelf: &mut H,
    files: &[(Text, Text)],
    services: &[ServiceDecl],
) -> Result<Vec<Service>, Refusal>
    ensures read { TellsAll (LoadsEach (H.content shelf.old) files.now
        (map service_of services.now))
        (λ all. map view_service all.items) result }
    ensures frame { (command : Command) → files_of command ≡ files.now
        → Leaves command (H.content shelf.old) (H.content shelf.new) (H.faults shelf.old)
        (H.faults shelf.new) }
    ensures cause { (command : Command) → files_of command ≡ files.now → has_services command ≡ true
        → IfErr result (λ refusal. IsCausedBy command (H.faults shelf.old) (H.faults shelf.new)
        (cause_of refusal)) }
{
    let mut all = Vec::new(alloc);
    for service in services {
        match add_next(alloc, shelf, files, service, &mut all) {
            Ok(()) => {}
            Err(refusal) => return Err(refusal),
        }
    }
    Ok(all)
}

// Takes in the next service, behind which others stand.
fn add_next<H: Shelf>(
    alloc: Global,
    shelf: &mut H,
    files: &[(Text, Text)],
    service: &ServiceDecl,
    all: &mut Vec<Service>,
) -> Result<(), Refusal>
    ensures read { (others : List Said) (loaded : Result (List Rows) Told)
        → IsBehind (H.content shelf.old) files.now (service_of service.now ∷ others)
        (map view_service all.old.items) loaded → Advances (H.content shelf.old) files.now others
        (map view_service all.new.items) loaded result }
    ensures frame { (command : Command) → files_of command ≡ files.now
        → Leaves command (H.content shelf.old) (H.content shelf.new) (H.faults shelf.old)
        (H.faults shelf.new) }
    ensures cause { (command : Command) → files_of command ≡ files.now → has_services command ≡ true
        → IfErr result (λ refusal. IsCausedBy command (H.faults shelf.old) (H.faults shelf.new)
        (cause_of refusal)) }
{
    match fetch_next(alloc, shelf, files, service) {
        Ok(next) => put(all, next),
        Err(refusal) => Err(refusal),
    }
}

fn put(all: &mut Vec<Service>, next: Service) -> Result<(), Refusal>
    ensures rows { OnOk result (all.new.items ≡ all.old.items ++ next ∷ []) }
    ensures memory { IfErr result (λ refusal. refusal ≡ refused.NoMemory) }
{
    match all.push(next) {
        Ok(()) => Ok(()),
        Err(_) => Err(Refusal::NoMemory),
    }
}

// The next service.
fn fetch_next<H: Shelf>(
    alloc: Global,
    shelf: &mut H,
    files: &[(Text, Text)],
    service: &ServiceDecl,
) -> Result<Service, Refusal>
    ensures read { TellsAll (LoadsService (H.content shelf.old) (service_of service.now)
        (file_named (service_of service.now).name files.now)) view_service result }
    ensures frame { (command : Command) → files_of command ≡ files.now
        → Leaves command (H.content shelf.old) (H.content shelf.new) (H.faults shelf.old)
        (H.faults shelf.new) }
    ensures cause { (command : Command) → files_of command ≡ files.now → has_services command ≡ true
        → IfErr result (λ refusal. IsCausedBy command (H.faults shelf.old) (H.faults shelf.new)
        (cause_of refusal)) }
{
    let name = match Name::new(&service.name) {
        Ok(name) => name,
        Err(_) => return Err(Refusal::NoMemory),
    };
    match find_file(files, &service.name) {
        Some(file) => fetch_service(alloc, shelf, file, name, service),
        None => Err(Refusal::ServiceMissing { name }),
    }
}

fn fetch_service<H: Shelf>(
    alloc: Global,
    shelf: &mut H,
    file: &Text,
    name: Name,
    service: &ServiceDecl,
) -> Result<Service, Refusal>
    requires name { name ≡ service.now.name }
    ensures read { TellsAll (LoadsService (H.content shelf.old) (service_of service.now)
        (Some file.now)) view_service result }
    ensures frame { Fetches file.now (H.content shelf.old) (H.content shelf.new)
        (H.faults shelf.old) (H.faults shelf.new) }
    ensures cause { IfErr result (IsCausedAt (which.Service name) file.now (H.faults shelf.old)
        (H.faults shelf.new)) }
{
    match fetch_bytes(alloc, shelf, file, &name) {
        Ok(bytes) => read_rows(alloc, name, service, &bytes),
        Err(refusal) => Err(refusal),
    }
}

fn fetch_bytes<H: Shelf>(
    alloc: Global,
    shelf: &mut H,
    file: &Text,
    name: &Name,
) -> Result<Vec<u8>, Refusal>
    ensures read { TellsAll (LoadsFile (which.Service name.now) most_service_bytes
        (refused.ServiceLonger name.now) AreBytes (H.content shelf.old file.now))
        (λ bytes. bytes.items) result }
    ensures frame { Fetches file.now (H.content shelf.old) (H.content shelf.new)
        (H.faults shelf.old) (H.faults shelf.new) }
    ensures cause { IfErr result (IsCausedAt (which.Service name.now) file.now (H.faults shelf.old)
        (H.faults shelf.new)) }
{
    fetch(
        alloc,
        shelf,
        file,
        Which::Service(name.copy()),
        LIMIT,
        Refusal::ServiceLonger { name: name.copy() },
    )
}

fn read_rows(
    alloc: Global,
    name: Name,
    service: &ServiceDecl,
    bytes: &[u8],
) -> Result<Service, Refusal>
    requires name { name ≡ service.now.name }
    ensures read { TellsAll (ReadsService (service_of service.now) bytes.now) view_service result }
    ensures cause { IfErr result (IsRefusedAt services) }
{
    match read_service(alloc, &service.key, &service.value, bytes) {
        Ok(service) => Ok(service),
        Err(ServiceError::BadRow { line }) => Err(Refusal::ServiceBad { name, line }),
        Err(ServiceError::TwiceKey { line, first }) => {
            Err(Refusal::ServiceTwice { name, line, first })
        }
        Err(ServiceError::NoMemory) => Err(Refusal::NoMemory),
    }
}

// The file of a service; the first of the name.
fn find_file<'a>(files: &'a [(Text, Text)], name: &Text) -> Option<&'a Text>
    ensures { option_map (λ file. file.now) result ≡ file_named name.now files.now }
{
    for file in files {
        if name.as_bytes() == file.0.as_bytes() {
            return Some(&file.1);
        }
    }
    None
}

// Whether a word gives a service that isn't declared.
fn has_unknown(services: &[ServiceDecl], files: &[(Text, Text)]) -> bool
    ensures { result ≡ has_unknown (map service_of services.now) files.now }
{
    for file in files {
        if !is_declared(services, &file.0) {
            return true;
        }
    }
    false
}

fn is_declared(services: &[ServiceDecl], name: &Text) -> bool
    ensures { result ≡ is_some (found (λ s. s.name) name.now (map service_of services.now)) }
{
    for service in services {
        if name.as_bytes() == service.name.as_bytes() {
            return true;
        }
    }
    false
}
