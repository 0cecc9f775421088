//! The first k of scored items.
ghost use Rattle.std.specs.Prelude.{◌≡◌, ◌<◌, ◌≤◌, ◌↔◌, ◌+◌, ℕ, ℤ, Ok, [], ◌∷◌, ◌++◌, List, length, take, option_to_list, IsSome, IfSome, IfOk, OnOk, OnErr, MatchOption};
ghost use Rattle.std.specs.List.{insert};
ghost use Rattle.std.specs.Vec.{vec_len, vec_capacity};
ghost use Rattle.sb_gather.specs.Limits.{most_places};
ghost use Rattle.sb_gather.specs.Steps.{TopStepBack, StepsBack};
ghost use Rattle.sb_gather.specs.Tops.{by_rank, placed, first_of_both, IsTop};

use crate::entries::{MANY, Steps};
use crate::place::{Ordered, place_of};
use crate::ranking::merge_ranked;
use sb_laws::{Commuting, Items, Key, Monoid, NoMemory, Semigroup, Undo};
use std::alloc::Global;
use std::cmp::Ordering;
use std::marker::{Model, PhantomData};

/// Scored items, by falling score and then rising item. An item stands in it as often as it came.
pub type Scored<K> = Items<(i64, K)>;

/// The most places of a top.
pub const MOST_PLACES: u32 = 1024;

/// The first k of both lists together, for k from 1 to 1,024; the zero is the empty list. Contracts see the number k.
#[derive(Drop)]
pub struct TopM<K: Key> {
    places: u32,
    item: PhantomData<K>,
}

impl<K: Key> Model for TopM<K> {
    ghost Value = { ℕ };

    ghost view = { λ top. top.places };

    ghost invariant = { λ top. (0 < top.places) × (top.places ≤ most_places) };
}

impl<K: Key> TopM<K> {
    /// The dictionary of the first `k`, and none exactly where `k` is 0 or above 1,024.
    pub fn new(k: u32) -> Option<TopM<K>>
        ensures number { IfSome result (λ top. top ≡ k) }
        ensures within { IsSome result ↔ ((0 < k) × (k ≤ most_places)) }
    {
        if k == 0 || k > MOST_PLACES {
            return None;
        }
        Some(TopM {
            places: k,
            item: PhantomData,
        })
    }

    /// The number k.
    pub fn places(&self) -> usize
        ensures { result ≡ self.now }
    {
        self.places as usize
    }

    /// The list of one scored item.
    pub fn one(&self, alloc: Global, score: i64, item: K) -> Result<Scored<K>, NoMemory>
        ensures item { IfOk result (λ list. list ≡ (score, item) ∷ []) }
        ensures valid { IfOk result (IsTop (by_rank K.cmp) self.now) }
    {
        // What is known of the places counts only where they are looked at.
        let _ = &self.places;
        let mut list = Vec::with_capacity(alloc, 1)?;
        list.push((score, item))?;
        Ok(Items::from_vec(list))
    }
}

impl<K: Key> Ordered for TopM<K> {
    ghost use Rattle.sb_gather.specs.TopLaws.{by_rank_total};

    type Entry = (i64, K);

    ghost order = { λ _. by_rank K.cmp };

    ghost total = { λ _. by_rank_total K.cmp K.total };

    fn compare(&self, a: &(i64, K), b: &(i64, K)) -> Ordering {
        match b.0.cmp(&a.0) {
            Ordering::Equal => a.1.cmp(&b.1),
            by_score => by_score,
        }
    }
}

// Where the entry goes: beside one that is equal, or in the gap.
fn place_among<K: Key>(top: &TopM<K>, list: &[(i64, K)], entry: &(i64, K)) -> usize
    requires { IsTop (by_rank K.cmp) top.now list.now }
    ensures placed { placed (by_rank K.cmp) entry.now list.now ≡ insert list.now result entry.now }
    ensures within { result ≤ length list.now }
{
    match place_of(top, list, entry) {
        Ok(at) => at,
        Err(at) => at,
    }
}

// Room for one more among at most `places`: the last goes where the list is full, and is handed out.
fn room_for_one<T: Drop>(list: &mut Vec<T>, places: usize) -> Result<Option<T>, NoMemory>
    requires places { 0 < places }
    requires few { length list.old.items ≤ places }
    ensures items { IfOk result (λ out. list.old.items ≡ list.new.items ++ option_to_list out) }
    ensures out { IfOk result (λ out. MatchOption out (length list.new.items < places)
        (λ _. length list.new.items + 1 ≡ places)) }
    ensures room { OnOk result (vec_len list.new < vec_capacity list.new) }
    ensures err { OnErr result (list.new.items ≡ list.old.items) }
{
    if list.len() >= places {
        return Ok(list.pop());
    }
    list.reserve(1)?;
    Ok(None)
}

type TopStep<K> = (usize, Option<(i64, K)>);

// Puts an entry in its place, if it is one of the first; says how to take that back, if anything changed.
fn put_one<K: Key>(
    top: &TopM<K>,
    list: &mut Vec<(i64, K)>,
    entry: (i64, K),
) -> Result<Option<TopStep<K>>, NoMemory>
    requires { IsTop (by_rank K.cmp) top.now list.old.items }
    ensures ok { OnOk result (list.new.items
        ≡ take top.now (placed (by_rank K.cmp) entry list.old.items)) }
    ensures undone { IfOk result (λ step. MatchOption step (list.new.items ≡ list.old.items)
        (λ step. TopStepBack step list.new.items list.old.items)) }
    ensures err { OnErr result (list.new.items ≡ list.old.items) }
{
    let at = place_among(top, list.as_slice(), &entry);
    if at >= top.places() {
        return Ok(None);
    }
    let out = room_for_one(list, top.places())?;
    list.insert(at, entry)?;
    Ok(Some((at, out)))
}

// Puts an entry in its place, and notes the step.
fn put_next<K: Key>(
    top: &TopM<K>,
    list: &mut Vec<(i64, K)>,
    steps: &mut Steps<(i64, K)>,
    entry: (i64, K),
) -> Result<(), NoMemory>
    requires { IsTop (by_rank K.cmp) top.now list.old.items }
    ensures ok { OnOk result (list.new.items
        ≡ take top.now (placed (by_rank K.cmp) entry list.old.items)) }
    ensures undone { OnOk result ((first : List (ℤ × K))
        → StepsBack TopStepBack steps.old.items list.old.items first
        → StepsBack TopStepBack steps.new.items list.new.items first) }
    ensures err { OnErr result ((list.new.items ≡ list.old.items)
        × (steps.new.items ≡ steps.old.items)) }
{
    steps.reserve(1)?;
    if let Some(step) = put_one(top, list, entry)? {
        steps.push(step)?;
    }
    Ok(())
}

// Takes one step back. One that can't have been done here changes nothing.
fn step_back<K: Key>(list: &mut Vec<(i64, K)>, step: TopStep<K>)
    ensures { (earlier : List (ℤ × K)) → TopStepBack step list.old.items earlier
        → list.new.items ≡ earlier }
{
    let (at, out) = step;
    if at >= list.len() {
        return;
    }
    drop(list.remove(at));
    // There is room: one was just removed.
    if let Some(last) = out {
        drop(list.push(last));
    }
}

fn take_back<K: Key>(list: &mut Vec<(i64, K)>, steps: Steps<(i64, K)>)
    ensures { (earlier : List (ℤ × K)) → StepsBack TopStepBack steps.items list.old.items earlier
        → list.new.items ≡ earlier }
{
    let mut steps = steps;
    while let Some(step) = steps.pop() {
        step_back(list, step);
    }
}

// Puts each entry in its place, and says how to take that back.
fn put_all<K: Key>(
    top: &TopM<K>,
    alloc: Global,
    list: &mut Vec<(i64, K)>,
    more: Vec<(i64, K)>,
) -> Result<Steps<(i64, K)>, NoMemory>
    requires { IsTop (by_rank K.cmp) top.now list.old.items }
    ensures ok { OnOk result (list.new.items
        ≡ first_of_both (by_rank K.cmp) top.now list.old.items more.items) }
    ensures undone { IfOk result (λ steps. StepsBack TopStepBack steps.items list.new.items
        list.old.items) }
    ensures err { OnErr result (list.new.items ≡ list.old.items) }
{
    let mut steps = Vec::with_capacity(alloc, more.len())?;
    for entry in more {
        if let Err(refused) = put_next(top, list, &mut steps, entry) {
            take_back(list, steps);
            return Err(refused);
        }
    }
    Ok(steps)
}

// Puts the first of both into the list, by the cheaper way, and says how to take that back.
fn put_recorded<K: Key>(
    top: &TopM<K>,
    alloc: Global,
    list: &mut Vec<(i64, K)>,
    more: Vec<(i64, K)>,
) -> Result<Steps<(i64, K)>, NoMemory>
    requires left { IsTop (by_rank K.cmp) top.now list.old.items }
    requires right { IsTop (by_rank K.cmp) top.now more.items }
    ensures ok { OnOk result (list.new.items
        ≡ first_of_both (by_rank K.cmp) top.now list.old.items more.items) }
    ensures undone { IfOk result (λ steps. StepsBack TopStepBack steps.items list.new.items
        list.old.items) }
    ensures err { OnErr result (list.new.items ≡ list.old.items) }
{
    if more.len() < MANY {
        return put_all(top, alloc, list, more);
    }
    merge_ranked(top, top.places(), alloc, list, more)
}

// Puts the first of both into the list. A single entry takes no memory but its own room.
fn put_list<K: Key>(
    top: &TopM<K>,
    alloc: Global,
    list: &mut Vec<(i64, K)>,
    more: Vec<(i64, K)>,
) -> Result<(), NoMemory>
    requires left { IsTop (by_rank K.cmp) top.now list.old.items }
    requires right { IsTop (by_rank K.cmp) top.now more.items }
    ensures ok { OnOk result (list.new.items
        ≡ first_of_both (by_rank K.cmp) top.now list.old.items more.items) }
    ensures err { OnErr result (list.new.items ≡ list.old.items) }
{
    if more.len() > 1 {
        let _ = put_recorded(top, alloc, list, more)?;
        return Ok(());
    }
    let mut more = more;
    if let Some(entry) = more.pop() {
        let _ = put_one(top, list, entry)?;
    }
    Ok(())
}

fn put_items_recorded<K: Key>(
    top: &TopM<K>,
    alloc: Global,
    a: &mut Scored<K>,
    b: Scored<K>,
) -> Result<Steps<(i64, K)>, NoMemory>
    requires left { IsTop (by_rank K.cmp) top.now a.old }
    requires right { IsTop (by_rank K.cmp) top.now b }
    ensures ok { OnOk result (a.new ≡ first_of_both (by_rank K.cmp) top.now a.old b) }
    ensures undone { IfOk result (λ steps. StepsBack TopStepBack steps.items a.new a.old) }
    ensures err { OnErr result (a.new ≡ a.old) }
{
    let mut list = a.take();
    let done = put_recorded(top, alloc, &mut list, b.into_vec());
    *a = Items::from_vec(list);
    done
}

fn take_items_back<K: Key>(a: &mut Scored<K>, steps: Steps<(i64, K)>)
    ensures { (earlier : List (ℤ × K)) → StepsBack TopStepBack steps.items a.old earlier
        → a.new ≡ earlier }
{
    let mut list = a.take();
    take_back(&mut list, steps);
    *a = Items::from_vec(list);
}

impl<K: Key> Semigroup for TopM<K> {
    ghost use Rattle.sb_gather.specs.TopLaws.{by_rank_total, by_rank_same, top_keeps, top_associates};

    type El = Scored<K>;

    ghost valid = { λ k a. IsTop (by_rank K.cmp) k a };

    ghost add = { λ k a b. first_of_both (by_rank K.cmp) k a b };

    ghost keeps_valid = { λ k a b p q. top_keeps (by_rank K.cmp) (by_rank_total K.cmp K.total) (by_rank_same K.cmp K.same) k a b p q };

    ghost associates = { λ k a b c p q r. top_associates (by_rank K.cmp) (by_rank_total K.cmp K.total) (by_rank_same K.cmp K.same) k a b c p q r };

    fn plus(&self, alloc: Global, a: &mut Scored<K>, b: Scored<K>) -> Result<(), NoMemory> {
        let mut list = a.take();
        let done = put_list(self, alloc, &mut list, b.into_vec());
        *a = Items::from_vec(list);
        done
    }

    fn copy(&self, alloc: Global, a: &Scored<K>) -> Result<Scored<K>, NoMemory> {
        let mut entries = Vec::with_capacity(alloc, a.len())?;
        for entry in a.as_slice() {
            let item = entry.1.copy(alloc)?;
            entries.push((entry.0, item))?;
        }
        Ok(Items::from_vec(entries))
    }
}

impl<K: Key> Monoid for TopM<K> {
    ghost use Rattle.sb_gather.specs.TopLaws.{by_rank_total, by_rank_same, nothing_is_top, top_of_nothing, top_and_nothing};

    ghost neutral = { λ _. [] };

    ghost neutral_valid = { λ k. nothing_is_top (by_rank K.cmp) (by_rank_total K.cmp K.total) (by_rank_same K.cmp K.same) k };

    ghost neutral_left = { λ k a p. top_of_nothing (by_rank K.cmp) (by_rank_total K.cmp K.total) (by_rank_same K.cmp K.same) k a p };

    ghost neutral_right = { λ k a p. top_and_nothing (by_rank K.cmp) (by_rank_total K.cmp K.total) (by_rank_same K.cmp K.same) k a p };

    fn zero(&self, alloc: Global) -> Result<Scored<K>, NoMemory>
        ensures { result ≡ Ok [] }
    {
        Ok(Items::new(alloc))
    }

    fn is_zero(&self, a: &Scored<K>) -> bool {
        a.is_empty()
    }
}

impl<K: Key> Commuting for TopM<K> {
    ghost use Rattle.sb_gather.specs.TopLaws.{by_rank_total, by_rank_same, top_commutes};

    ghost commutes = { λ k a b p q. top_commutes (by_rank K.cmp) (by_rank_total K.cmp K.total) (by_rank_same K.cmp K.same) k a b p q };
}

impl<K: Key> Undo for TopM<K> {
    type Undone = Steps<(i64, K)>;

    ghost takes_back = { λ _ steps later earlier. StepsBack TopStepBack steps.items later earlier };

    fn plus_recorded(
        &self,
        alloc: Global,
        a: &mut Scored<K>,
        b: Scored<K>,
    ) -> Result<Steps<(i64, K)>, NoMemory> {
        put_items_recorded(self, alloc, a, b)
    }

    fn undo(&self, a: &mut Scored<K>, steps: Steps<(i64, K)>) {
        take_items_back(a, steps)
    }
}
