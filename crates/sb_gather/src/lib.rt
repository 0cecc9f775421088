//! Pairs, sets, maps and tops as dictionaries.
#![tactic(auto)]

mod entries;
mod laws;
mod map;
mod merging;
mod pair;
mod place;
mod ranking;
mod set;
mod top;

pub use entries::{
    Joining, MANY, Steps, add_entries, add_entry, plus_items, plus_items_recorded, take_back,
    take_items_back,
};
pub use laws::{
    maps_are_added_key_by_key, tops_are_ranked_permutations, unions_have_the_members_of_both,
};
pub use map::{Entries, MapM};
pub use merging::{merge_entries, pass_before};
pub use pair::{Both, PairM};
pub use place::{Ordered, place_of};
pub use set::{Keys, SetM};
pub use top::{Scored, TopM};
