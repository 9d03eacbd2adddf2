// What a text of types and homes stands for.
ghost use Rattle.std.specs.Prelude.{◌≡◌, ◌++◌, ◌∷◌, [], OnOk, OnErr};

use crate::{Factories, HomeNo, Indexes, KeyList, KeyNos, Layout, ProvidedList};
use pss_base::{Bytes, NoMemory};
use std::alloc::Global;
use std::marker::Model;

/// A factory, as a home is seen to have it: the members that its caller gives, in its order. The others get their
/// defaults.
#[derive(Drop)]
pub struct Factory {
    pub name: Bytes,
    pub members: Indexes,
}

/// A storage home. Its name is scoped, with `::` between the parts.
#[derive(Drop)]
pub struct Home {
    pub name: Bytes,
    /// The home that it derives from.
    pub base: Option<HomeNo>,
    pub layout: Layout,
    /// Its own keys and those that it has from others.
    pub keys: KeyNos,
    pub factories: Factories,
}

/// The storage homes of a schema, from number 1.
#[derive(Drop)]
pub struct HomeList {
    homes: Vec<Home>,
}

impl Model for HomeList {
    ghost use Rattle.std.specs.Prelude.{List};
    ghost use Rattle.type_layout.specs.declared.schema.Home.{Home};

    ghost Value = { List Home };

    ghost use Rattle.type_layout.specs.HomeCodes.{homes_code};

    ghost coded = { homes_code };

    ghost view = { λ l. l.homes.items };
}

impl HomeList {
    /// None. It takes no memory.
    pub fn new(alloc: Global) -> HomeList
        ensures { result ≡ [] }
    {
        HomeList {
            homes: Vec::new(alloc),
        }
    }

    /// Puts one last. `NoMemory`: the list is as before.
    pub fn push(&mut self, home: Home) -> Result<(), NoMemory>
        ensures ok { OnOk result (self.new ≡ self.old ++ home ∷ []) }
        ensures err { OnErr result (self.new ≡ self.old) }
    {
        self.homes.push(home)?;
        Ok(())
    }

    pub fn as_slice(&self) -> &[Home]
        ensures { result.now ≡ self.now }
    {
        &self.homes
    }
}

/// Storage homes with their layouts, the keys, and what the catalogs provide.
#[derive(Drop)]
pub struct Schema {
    pub homes: HomeList,
    pub keys: KeyList,
    pub provided: ProvidedList,
}
