//! Tables by name, which borrow the names from the text.
//!
//! A digest says the place of a name, at which few others stand. Names whose place has no room are kept in the order of their
//! digests, and of the names where these are equal. So few names are compared byte by byte, and still no text can make a table
//! slow: whoever knows the digest can write names that collide, and these are kept in order too.

ghost use Rattle.name_tables.specs.Naming.{digest, has_room, one, shown, spread_found};
ghost use Rattle.name_tables.specs.ByName.{found};
ghost use Rattle.std.specs.Option.{option_copied, option_or};
ghost use Rattle.std.specs.Prelude.{◌≡◌, ◌<◌, ◌%◌, ◌∷◌, ◌++◌, ℕ, [], None, List as Seq, is_some, map, IfOk, OnErr, OnOk};

use cam_base::Made;
use std::alloc::Global;
use std::collections::BTreeMap;
use std::hash::{FoldHasher, Hasher};
use std::marker::Model;

/// A number by which most names differ.
#[tactic(auto, unfolding(crate::specs::Naming::digest))]
fn digest(name: &[u8]) -> u64
    ensures { result ≡ digest name.now }
{
    let mut hasher = FoldHasher::default();
    hasher.write(name);
    hasher.finish()
}

/// Values by name, in order. Contracts see it as the list of its entries.
#[derive(Drop)]
struct Names<'x, V> {
    entries: BTreeMap<(u64, &'x [u8]), V>,
}

impl<'x, V> Model for Names<'x, V> {
    ghost use Rattle.name_tables.specs.Naming.{Key, are_digested};
    ghost use Rattle.std.specs.Coded.{coded×, coded_ℕ, coded_list};
    ghost use Rattle.std.specs.Prelude.{List, ℕ, IsTrue, map};

    ghost Value = { List (List ℕ × V) };

    ghost coded = { coded_list (coded× (coded_list coded_ℕ) V.code) };

    ghost view = { λ s. map (λ (e : Key × V). (e.0.1.now, e.1)) s.entries.entries };

    ghost invariant = { λ s. IsTrue (are_digested s.entries.entries) };
}

impl<'x, V: Drop> Names<'x, V> {
    /// The empty table. Takes no memory.
    fn new(alloc: Global) -> Names<'x, V>
        ensures { result ≡ [] }
    {
        Names {
            entries: BTreeMap::new(alloc),
        }
    }

    /// What the name of this digest stands for.
    fn find(&self, number: u64, name: &'x [u8]) -> Option<&V>
        requires { number ≡ digest name.now }
        ensures { option_copied result ≡ found self.now name.now }
    {
        self.entries.get(&(number, name))
    }

    /// Puts a value under its name, where the name has none yet, and answers whether it has one.
    fn put(&mut self, number: u64, name: &'x [u8], value: V) -> Made<bool>
        requires digested { number ≡ digest name.now }
        ensures met { IfOk result (λ met. met ≡ is_some (found self.old name.entry.now)) }
        ensures found { OnOk result ((n : Seq ℕ) → found self.new n ≡ option_or (found self.old n)
            (found ((name.entry.now, value) ∷ []) n)) }
        ensures err { OnErr result (self.new ≡ self.old) }
    {
        if self.find(number, name).is_some() {
            return Ok(true);
        }
        self.entries.insert((number, name), value)?;
        Ok(false)
    }
}

/// What a name stands for where this is all there is.
fn alone<'s, 'x, V>(entry: &'s Option<(&'x [u8], V)>, name: &'x [u8]) -> Option<&'s V>
    ensures { option_copied result ≡ found (one entry.now) name.now }
{
    match entry {
        Some((found, value)) if *found == name => Some(value),
        _ => None,
    }
}

/// What a name stands for among these.
fn among<'s, 'x, V>(entries: &'s [(&'x [u8], V)], name: &'x [u8]) -> Option<&'s V>
    ensures { option_copied result ≡ found (map shown entries.now) name.now }
{
    for entry in entries {
        if name == entry.0 {
            return Some(&entry.1);
        }
    }
    None
}

/// How many names a place takes behind the first.
const MOST: usize = 8;

/// The names of one place. Contracts see it as the list of its entries.
#[derive(Drop)]
struct Few<'x, V> {
    first: Option<(&'x [u8], V)>,
    more: Vec<(&'x [u8], V)>,
}

impl<'x, V> Model for Few<'x, V> {
    ghost use Rattle.name_tables.specs.Naming.{one, shown};
    ghost use Rattle.std.specs.Coded.{coded×, coded_ℕ, coded_list};
    ghost use Rattle.std.specs.Prelude.{◌≡◌, ◌++◌, [], IfNone, List, ℕ, map};

    ghost Value = { List (List ℕ × V) };

    ghost coded = { coded_list (coded× (coded_list coded_ℕ) V.code) };

    ghost view = { λ p. one p.first ++ map shown p.more.items };

    ghost invariant = { λ p. IfNone p.first (p.more.items ≡ []) };
}

impl<'x, V: Drop> Few<'x, V> {
    /// No name yet. Takes no memory.
    fn new(alloc: Global) -> Few<'x, V>
        ensures { result ≡ [] }
    {
        Few {
            first: None,
            more: Vec::new(alloc),
        }
    }

    /// What a name stands for.
    #[tactic(auto, using(crate::proofs::Spread::found_first, crate::proofs::Spread::found_behind))]
    fn find(&self, name: &'x [u8]) -> Option<&V>
        ensures { option_copied result ≡ found self.now name.now }
    {
        match alone(&self.first, name) {
            Some(value) => Some(value),
            None => among(self.more.as_slice(), name),
        }
    }

    fn has_room(&self) -> bool
        ensures { result ≡ has_room self.now }
    {
        self.more.len() < MOST
    }

    /// Puts a name at the end.
    fn push(&mut self, name: &'x [u8], value: V) -> Made<()>
        ensures ok { OnOk result (self.new ≡ self.old ++ (name.entry.now, value) ∷ []) }
        ensures err { OnErr result (self.new ≡ self.old) }
    {
        if self.first.is_none() {
            self.first = Some((name, value));
            return Ok(());
        }
        self.more.reserve_exact(1)?;
        self.more.push((name, value))?;
        Ok(())
    }
}

/// Values by name: a few at each place, and those whose place has no room. Contracts see it as the list of the places and the
/// list of the others.
#[derive(Drop)]
pub struct SpreadNames<'x, V> {
    places: Vec<Few<'x, V>>,
    others: Names<'x, V>,
}

impl<'x, V> Model for SpreadNames<'x, V> {
    ghost use Rattle.name_tables.specs.Naming.{AreOthers};
    ghost use Rattle.std.specs.Coded.{coded×, coded_ℕ, coded_list};
    ghost use Rattle.std.specs.Prelude.{◌<◌, List, ℕ, length};

    ghost Value = { List (List (List ℕ × V)) × List (List ℕ × V) };

    ghost coded = { coded× (coded_list (coded_list (coded× (coded_list coded_ℕ) V.code)))
        (coded_list (coded× (coded_list coded_ℕ) V.code)) };

    ghost view = { λ s. (s.places.items, s.others) };

    ghost invariant = { λ s. (0 < length s.places.items) × AreOthers s.places.items s.others };
}

/// The number of the place of a digest, among so many.
fn place(number: u64, count: usize) -> usize
    requires { 0 < count }
    ensures place { result ≡ number % count }
    ensures bound { result < count }
{
    (number % count as u64) as usize
}

impl<'x, V: Drop> SpreadNames<'x, V> {
    /// An empty table for so many names.
    pub fn with_room(alloc: Global, names: usize) -> Made<SpreadNames<'x, V>>
        ensures { IfOk result (λ t. (n : Seq ℕ) → spread_found t n ≡ None) }
    {
        let count = names.saturating_add(1);
        let mut places = Vec::with_capacity(alloc, count)?;
        for _ in 0..count {
            places.push(Few::new(alloc))?;
        }
        Ok(SpreadNames {
            places,
            others: Names::new(alloc),
        })
    }

    /// What the name stands for.
    pub fn get(&self, name: &'x [u8]) -> Option<&V>
        ensures { option_copied result ≡ spread_found self.now name.now }
    {
        let number = digest(name);
        let at = place(number, self.places.len());
        match self.places[at].find(name) {
            Some(value) => Some(value),
            None => self.others.find(number, name),
        }
    }

    /// Puts a value under its name, where the name has none yet, and answers whether it has one.
    pub fn add(&mut self, name: &'x [u8], value: V) -> Made<bool>
        ensures met { IfOk result (λ met. met ≡ is_some (spread_found self.old name.entry.now)) }
        ensures found { OnOk result ((n : Seq ℕ) → spread_found self.new n ≡ option_or (spread_found self.old n)
            (found ((name.entry.now, value) ∷ []) n)) }
    {
        let number = digest(name);
        let at = place(number, self.places.len());
        if self.places[at].find(name).is_some() {
            return Ok(true);
        }
        if !self.places[at].has_room() {
            return self.others.put(number, name, value);
        }
        self.places[at].push(name, value)?;
        Ok(false)
    }
}
