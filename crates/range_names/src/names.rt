// The names of spans.
ghost use Rattle.std.specs.Prelude.{◌≡◌, ◌≤◌, ◌⊎◌, length, OnOk, OnErr, IfOk, IfErr, IfSome, IfNone, Some, None};
ghost use Rattle.std.specs.FinMap as namemap;
ghost use Rattle.std.specs.BTreeMap.{IsOrdered};
ghost use Rattle.std.specs.Ordering.{is_gt};
ghost use Rattle.range_names.specs.Names.{fault_of, key_of, name_cmp, name_of_span, next_after, next_name, AreKeys};
ghost use Rattle.range_names.specs.declared.fault.NameFault.TheVariants as cause;

use crate::NameFault;
use crate::key::{checked_key, key_of, name_in};
use crate::spots::{copied_spots, first_at, put_spot, spot_of, take_other, take_spot};
use grid_address::Span;
use lics_text::Memory;
use std::alloc::Global;
use std::collections::BTreeMap;
use std::collections::btree_map::Iter;
use std::marker::Model;

/// Names with their spans. A name is 1 to 15 bytes of 32 to 255, letters folded, and doesn't begin with a space.
#[derive(Drop)]
pub struct Names {
    map: BTreeMap<[u8; 15], Span>,
    spots: BTreeMap<[u16; 19], [u8; 15]>,
}

impl Model for Names {
    ghost use Rattle.std.specs.Coded.{codes};
    ghost use Rattle.std.specs.FinMap as namemap;
    ghost use Rattle.range_names.specs.Names.{NameMap};

    ghost Value = { NameMap };

    ghost coded = { Prim.hlevel (codes, namemap.code) };

    ghost view = { λ n. namemap.from_entries n.map.entries };

    ghost use Rattle.range_names.specs.Names.{AreKeys};
    ghost use Rattle.range_names.specs.inner.Spots.{AreSpots};

    ghost invariant = { λ n. AreKeys (namemap.from_entries n.map.entries)
        × AreSpots n.spots.entries (namemap.from_entries n.map.entries) };
}

impl Names {
    /// No names.
    pub fn new(alloc: Global) -> Names
        ensures { result ≡ namemap.empty }
    {
        Names {
            map: BTreeMap::new(alloc),
            spots: BTreeMap::new(alloc),
        }
    }

    /// Gives a span a name; a name that is there gets the new span. The names are as before where it is refused:
    /// `Empty`, `TooLong` and `BadByte` come exactly by their causes, in this order.
    pub fn create(&mut self, name: &[u8], span: Span) -> Result<(), NameFault>
        ensures ok { OnOk result
            ((fault_of name.now ≡ None) × (self.new ≡ namemap.insert self.old (key_of name.now) span)) }
        ensures kept { OnErr result (self.new ≡ self.old) }
        ensures err { IfErr result (λ fault. (fault ≡ cause.Memory) ⊎ (fault_of name.now ≡ Some fault)) }
    {
        let key = checked_key(name)?;
        if put_spot(&mut self.spots, span, key).is_err() {
            return Err(NameFault::Memory);
        }
        match self.map.insert(key, span) {
            Ok(before) => {
                take_other(&mut self.spots, before, span, key);
                Ok(())
            }
            Err(_) => {
                take_spot(&mut self.spots, span, key);
                Err(NameFault::Memory)
            }
        }
    }

    /// Takes a name away. `Absent` comes exactly where it is a name and isn't there.
    pub fn delete(&mut self, name: &[u8]) -> Result<(), NameFault>
        ensures ok { OnOk result ((fault_of name.now ≡ None) × (self.new ≡ namemap.remove self.old (key_of name.now))) }
        ensures there { OnOk result (namemap.get self.old (key_of name.now) ≡ None → ⊥) }
        ensures kept { OnErr result (self.new ≡ self.old) }
        ensures err { IfErr result (λ fault. (fault_of name.now ≡ Some fault)
            ⊎ ((fault_of name.now ≡ None) × (fault ≡ cause.Absent) × (namemap.get self.old (key_of name.now) ≡ None))) }
    {
        let key = checked_key(name)?;
        match self.map.remove(&key) {
            Some(span) => {
                take_spot(&mut self.spots, span, key);
                Ok(())
            }
            None => Err(NameFault::Absent),
        }
    }

    /// The span of a name, in letters of either case.
    pub fn find(&self, name: &[u8]) -> Option<Span>
        ensures short { length name.now ≤ 15 → result ≡ namemap.get self.now (key_of name.now) }
        ensures long { (length name.now ≤ 15 → ⊥) → result ≡ None }
    {
        if name.len() > 15 {
            return None;
        }
        self.map.get(&key_of(name)).copied()
    }

    /// Each key is that of its name. Nothing is done: the contract says what all names keep.
    pub fn are_keyed(&self)
        ensures { AreKeys self.now }
    {
        let _ = &self.map;
    }

    /// The first name of a span, in byte order, among those that are words and no addresses: letters, digits and _
    /// that begin with a letter.
    pub fn of_span(&self, span: Span) -> Option<&[u8]>
        ensures some { IfSome result (λ name. name_of_span self.now span ≡ Some name.now) }
        ensures none { IfNone result (name_of_span self.now span ≡ None) }
    {
        match first_at(&self.spots, spot_of(span, &[0; 15])) {
            Some(key) => Some(name_in(key)),
            None => None,
        }
    }

    /// The first name behind another, in byte order; the first of all behind no bytes.
    pub fn after(&self, name: &[u8]) -> Option<&[u8]>
        ensures some { IfSome result (λ next. next_name self.now name.now ≡ Some next.now) }
        ensures none { IfNone result (next_name self.now name.now ≡ None) }
    {
        let counted = name.len().min(15);
        first_after(&self.map, key_of(&name[..counted]))
    }

    /// The keys and spans of the names, in byte order.
    pub fn entries(&self) -> Iter<'_, [u8; 15], Span>
        ensures { result ≡ namemap.entries self.now }
    {
        self.map.iter()
    }

    /// Equal names.
    pub fn copy(&self) -> Result<Names, Memory>
        ensures { IfOk result (λ names. names ≡ self.now) }
    {
        let map = copied(&self.map)?;
        let spots = copied_spots(&self.spots)?;
        Ok(Names { map, spots })
    }
}

// Equal entries.
fn copied(map: &BTreeMap<[u8; 15], Span>) -> Result<BTreeMap<[u8; 15], Span>, Memory>
    ensures { IfOk result (λ copy. copy.entries ≡ map.now.entries) }
{
    Ok(map.clone()?)
}

// The first name behind a key.
fn first_after(map: &BTreeMap<[u8; 15], Span>, wanted: [u8; 15]) -> Option<&[u8]>
    ensures some { IfSome result (λ next. next_after wanted map.now.entries ≡ Some next.now) }
    ensures none { IfNone result (next_after wanted map.now.entries ≡ None) }
    ensures ordered { IsOrdered name_cmp map.now }
{
    for (key, _) in map.iter() {
        if is_behind(key, wanted) {
            return Some(name_in(key));
        }
    }
    None
}

// Whether a key is greater than another, byte by byte.
fn is_behind(key: &[u8; 15], other: [u8; 15]) -> bool
    ensures { result ≡ is_gt (name_cmp key.now other) }
{
    key.cmp(&other).is_gt()
}
