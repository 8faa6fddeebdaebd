// Names that were looked up before.

ghost use Rattle.std.specs.Prelude.{◌≡◌, ◌<◌};
ghost use Rattle.std.specs.List.{position};
ghost use Rattle.std.specs.Str.{bytes_eq};

use session_values::Names;

/// How many names are remembered.
const SLOTS: usize = 16;

/// Where names were found last, by their length and first byte. A name that still stands there needs
/// no hash.
#[derive(Debug, Clone, Copy)]
pub(crate) struct Recent {
    places: [u32; SLOTS],
}

impl Recent {
    /// Nothing was looked up yet.
    pub(crate) fn none() -> Recent {
        Recent { places: [0; SLOTS] }
    }

    /// The place of a name, if it is there, as `Names::find` gives it.
    pub(crate) fn find(&mut self, names: &Names, name: &str) -> Option<u32>
        ensures { result ≡ position (bytes_eq name.now) names.now }
    {
        let slot = slot_of(name);
        let place = self.places[slot];
        if place < names.len() && names.text(place) == name {
            return Some(place);
        }
        let found = names.find(name)?;
        self.places[slot] = found;
        Some(found)
    }
}

// Where a name is remembered.
fn slot_of(name: &str) -> usize
    ensures { result < 16 }
{
    let bytes = name.as_bytes();
    match bytes.first() {
        Some(first) => (bytes.len() % SLOTS + usize::from(*first)) % SLOTS,
        None => 0,
    }
}
