//! What the statements of a program declare.
ghost use Rattle.std.specs.Prelude.{◌≡◌, ◌≤◌};
ghost use Rattle.sb_terms.specs.Sizes.{most_leaves};
ghost use Rattle.sb_check.specs.MonoidText.{monoid_text};
ghost use Rattle.sb_kind.specs.KindView.{monoid_of};

use sb_kind::Kind;
use sb_terms::Flow;
use sb_text::Text;
use sb_types::{Fields, Ty};
use sqlite_items::Items;

/// A source, and the fields of its records.
#[derive(Drop)]
pub struct SourceDecl {
    pub name: Text,
    pub fields: Fields,
}

/// A service, and the types of its keys and of what it has at them.
#[derive(Drop)]
pub struct ServiceDecl {
    pub name: Text,
    pub key: Ty,
    pub value: Ty,
}

/// A stream, the type of its values, and how many of them a record gives at most.
#[derive(Drop)]
pub struct Streamed {
    pub flow: Flow,
    pub ty: Ty,
    /// At most 1,024, as the width times the leaves of the type is.
    pub width: u64,
    ghost narrow: { width ≤ most_leaves },
}

/// A stream with a name.
#[derive(Drop)]
pub struct LetDecl {
    pub name: Text,
    pub stream: Streamed,
}

/// A store, the types of its keys and of the values that it takes, the kind of its sums, and the stream that feeds it.
#[derive(Drop)]
pub struct StoreDecl {
    pub name: Text,
    pub key: Ty,
    pub value: Ty,
    pub kind: Kind,
    pub flow: Flow,
    // The monoid's tokens, each with a space behind it.
    pub(crate) text: Vec<u8>,
    ghost spelled: { text.items ≡ monoid_text (monoid_of kind) },
}

impl StoreDecl {
    /// Its name, moved out; the rest is dropped.
    pub(crate) fn into_name(self) -> Text
        ensures { result ≡ self.name }
    {
        let StoreDecl {
            name,
            key,
            value,
            kind,
            flow,
            text,
        } = self;
        drop(key);
        drop(value);
        drop(kind);
        drop(flow);
        drop(text);
        name
    }
}

/// What the statements so far declare, each kind in the program's order.
#[derive(Drop)]
pub struct Declared {
    pub sources: Items<SourceDecl>,
    pub services: Items<ServiceDecl>,
    pub lets: Items<LetDecl>,
    pub stores: Items<StoreDecl>,
}
