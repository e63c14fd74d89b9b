// Places by text.
ghost use Rattle.std.specs.Prelude.{◌≡◌, ◌++◌, ◌∷◌, [], ℕ, List, OnOk, bytes_eq, if◌then◌else◌};
ghost use Rattle.resolver_core.specs.Lookups.{places_at};

use indexmap::IndexMap;
use std::alloc::{AllocError, Global};
use std::marker::Model;

/// Places, kept under texts.
#[derive(Drop)]
pub struct PlacesByText {
    kept: IndexMap<Vec<u8>, Vec<usize>>,
}

impl Model for PlacesByText {
    ghost use Rattle.std.specs.Prelude.{List, ℕ, map};

    ghost Value = { List (List ℕ × List ℕ) };

    ghost view = { λ p. map (λ e. (e.0.items, e.1.items)) p.kept.entries };
}

impl PlacesByText {
    pub fn new(alloc: Global) -> PlacesByText
        ensures { result ≡ [] }
    {
        PlacesByText {
            kept: IndexMap::new(alloc),
        }
    }

    /// The places under a text.
    pub fn at(&self, text: &[u8]) -> &[usize]
        ensures { result.now ≡ places_at self.now text.now }
    {
        match self.kept.get(text) {
            Some(places) => places.as_slice(),
            None => &[],
        }
    }

    /// Keeps one more place under a text.
    pub fn add(&mut self, alloc: Global, text: &str, place: usize) -> Result<(), AllocError>
        ensures { OnOk result ((q : List ℕ) → places_at self.new q
            ≡ places_at self.old q ++ (if bytes_eq q text.now then (place ∷ []) else [])) }
    {
        if let Some(places) = self.kept.get_mut(text.as_bytes()) {
            places.push(place)?;
            return Ok(());
        }
        let places = vec![in alloc; place]?;
        let key = text.as_bytes().to_vec(alloc)?;
        self.kept.insert(key, places)?;
        Ok(())
    }
}
