//! The places of the last settings of names.
ghost use Rattle.std.specs.Prelude.{◌≡◌, ℕ, List as Seq, None, IfOk, OnOk};
ghost use Rattle.pf_maincf.specs.Clauses.Places as spec;

use crate::setting::Setting;
use pf_base::NoMemory;
use std::alloc::Global;
use std::collections::BTreeMap;

/// The place of the last setting of each name.
#[derive(Drop)]
pub(crate) struct Places {
    pub(crate) places: BTreeMap<Vec<u8>, usize>,
}

impl Places {
    // No name has a place.
    fn new(alloc: Global) -> Places
        ensures { (name : Seq ℕ) → spec.place_in result name ≡ None }
    {
        Places {
            places: BTreeMap::new(alloc),
        }
    }

    // Puts the place of a name in that of an earlier one.
    fn put(&mut self, name: Vec<u8>, place: usize) -> Result<(), NoMemory>
        ensures { OnOk result (spec.Puts (spec.place_in self.old) (spec.place_in self.new) name.items place) }
    {
        let Ok(_) = self.places.insert(name, place) else {
            return Err(NoMemory);
        };
        Ok(())
    }

    // Puts the place of a name in that of an earlier one.
    fn add(&mut self, alloc: Global, name: &[u8], place: usize) -> Result<(), NoMemory>
        ensures { OnOk result (spec.Puts (spec.place_in self.old) (spec.place_in self.new) name.now place) }
    {
        let name = Vec::from_slice(alloc, name)?;
        self.put(name, place)
    }

    /// The place of the last setting of a name; None where it is not set.
    pub(crate) fn get(&self, name: &[u8]) -> Option<usize>
        ensures { result ≡ spec.place_in self.now name.now }
    {
        match self.places.get(name) {
            None => None,
            Some(place) => Some(*place),
        }
    }
}

/// The places of the last settings of names in these.
pub(crate) fn places_of(alloc: Global, settings: &[Setting]) -> Result<Places, NoMemory>
    ensures { IfOk result (λ places. spec.AreLast (spec.place_in places) settings.now) }
{
    let mut places = Places::new(alloc);
    for (place, setting) in settings.iter().enumerate() {
        places.add(alloc, setting.name.as_slice(), place)?;
    }
    Ok(places)
}
