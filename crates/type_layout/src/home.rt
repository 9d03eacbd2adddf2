// Numbers of storage homes.
ghost use Rattle.std.specs.Prelude.{◌≡◌, ◌++◌, ◌∷◌, [], OnOk, OnErr};
ghost use Rattle.std.specs.List.Sorted.{IsNonDecreasingBy};
ghost use Rattle.type_layout.specs.Values.{lists};

use pss_base::NoMemory;
use std::alloc::Global;
use std::marker::Model;

/// A storage home by its place in the schema, counted from 1.
#[derive(Clone, Copy, Debug, PartialEq, Eq, Hash, Drop)]
pub struct HomeNo(pub u32);

/// Storage homes, as the type of a reference lists them. One is found by halves where their numbers rise, as they do in the
/// schema of a text.
#[derive(Drop)]
pub struct HomeNos {
    homes: Vec<HomeNo>,
    rise: bool,
}

impl Model for HomeNos {
    ghost use Rattle.std.specs.Prelude.{List, ◌≡◌, true};
    ghost use Rattle.std.specs.List.Sorted.{IsNonDecreasingBy};
    ghost use Rattle.type_layout.specs.declared.home.HomeNo.{HomeNo};

    ghost Value = { List HomeNo };

    ghost view = { λ h. h.homes.items };

    ghost invariant = { λ h. h.rise ≡ true → IsNonDecreasingBy (λ n. n.0) h.homes.items };
}

// Whether a home is listed, where their numbers rise.
fn is_among_rising(homes: &[HomeNo], number: u32) -> bool
    requires { IsNonDecreasingBy (λ h. h.0) homes.now }
    ensures { result ≡ lists homes.now number }
{
    let place = homes.partition_point(|home| home.0 < number);
    match homes.get(place) {
        Some(home) => home.0 == number,
        None => false,
    }
}

impl HomeNos {
    ghost use Rattle.std.specs.Prelude.{true};

    /// No homes. It takes no memory.
    pub fn new(alloc: Global) -> HomeNos
        ensures { result ≡ [] }
    {
        HomeNos {
            homes: Vec::new(alloc),
            rise: true,
        }
    }

    /// Puts a home last. `NoMemory`: the list is as before.
    pub fn push(&mut self, home: HomeNo) -> Result<(), NoMemory>
        ensures ok { OnOk result (self.new ≡ self.old ++ home ∷ []) }
        ensures err { OnErr result (self.new ≡ self.old) }
    {
        let rise = self.rise && self.may_rise_to(home);
        self.homes.push(home)?;
        self.rise = rise;
        Ok(())
    }

    // Whether no home has a higher number than this one, where they rise.
    fn may_rise_to(&self, home: HomeNo) -> bool
        ensures { result ≡ true → IsNonDecreasingBy (λ h. h.0) self.now → IsNonDecreasingBy (λ h. h.0) (self.now ++ home ∷ []) }
    {
        match self.homes.last() {
            Some(last) => last.0 <= home.0,
            None => true,
        }
    }

    /// Whether a home of this number is listed.
    pub fn contains(&self, number: u32) -> bool
        ensures { result ≡ lists self.now number }
    {
        if self.rise {
            is_among_rising(&self.homes, number)
        } else {
            self.homes.iter().any(|home| home.0 == number)
        }
    }

    /// All of them, in the order in which they were put.
    pub fn as_slice(&self) -> &[HomeNo]
        ensures { result.now ≡ self.now }
    {
        &self.homes
    }
}
