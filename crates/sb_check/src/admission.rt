//! Which checked programs may run online.
ghost use Rattle.std.specs.Prelude.{◌≡◌, ◌≢◌, ◌<◌, Some, length, map, slice_get, option_map, option_and_then, IfSome};
ghost use Rattle.sb_check.specs.Admission as spec;
ghost use Rattle.sb_check.specs.Answers.{Answers};
ghost use Rattle.sb_check.specs.CheckedView.{checked_of};
ghost use Rattle.sb_check.specs.declared.admission.AdmitError.TheVariants.{NoMemory, NotCommuting};
ghost use Rattle.sb_check.specs.Declarations.{store_of};
ghost use Rattle.sb_check.specs.OnlineView.{online_of};

use crate::checked::Checked;
use crate::declarations::StoreDecl;
use crate::online::Online;
use sb_kind::commutes;
use sb_text::Text;
use thiserror::Error;

/// Why a checked program may not run online.
#[derive(Debug, Drop, Error)]
pub enum AdmitError {
    /// The first store whose sums depend on the order of what is added: its number, from 0, and its name.
    #[error("store {store} doesn't commute")]
    NotCommuting { store: u32, name: Text },
    #[error("out of memory")]
    NoMemory,
}

/// The program, where every store commutes, else the number and the name of the first that doesn't. The name is moved out
/// of the program, and the rest is dropped. Takes no memory; `NoMemory` is the answer to 2^32 stores, which no memory
/// holds.
pub fn admit(c: Checked) -> Result<Online, AdmitError>
    ensures { Answers NoMemory online_of (spec.admission_of (checked_of c)) result }
{
    match first_ordered(c.stores()) {
        None => Ok(Online::new(c)),
        Some(at) => Err(refusal(at, c)),
    }
}

// The place of the first store that doesn't commute.
fn first_ordered(stores: &[StoreDecl]) -> Option<usize>
    ensures first { option_and_then
        (λ at. option_map (λ s. (at, store_of s)) (slice_get stores.now at)) result
        ≡ spec.first_ordered 0 (map store_of stores.now) }
    ensures within { IfSome result (λ at. at < length stores.now) }
{
    for (at, store) in stores.iter().enumerate() {
        if !commutes(&store.kind) {
            return Some(at);
        }
    }
    None
}

fn refusal(at: usize, c: Checked) -> AdmitError
    requires { at < length (checked_of c).declared.stores }
    ensures { result ≢ NoMemory → Some result ≡ option_map (λ s. NotCommuting at s.name)
        (slice_get (checked_of c).declared.stores at) }
{
    let name = c.into_name(at);
    match u32::try_from(at) {
        Ok(store) => AdmitError::NotCommuting { store, name },
        Err(_) => AdmitError::NoMemory,
    }
}
