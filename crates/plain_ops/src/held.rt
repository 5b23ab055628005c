use flow_model::op::KeyList;
use flow_types::row::Row;
use sqlite_items::Items;
use std::alloc::Global;
use std::marker::Model;

/// The solution of a delta iteration as it stands: the fields of its key and its entries. It is seen
/// as the algebra's solution.
#[derive(Debug, Drop)]
pub struct Held {
    key: KeyList,
    entries: Vec<Row>,
}

impl Model for Held {
    ghost use Rattle.flow_model.specs.Solutions.{Solution};

    ghost Value = { Solution };

    ghost view = { λ h. record { key = h.key; entries = h.entries.items } };
}

impl Held {
    ghost use Rattle.std.specs.Prelude.{◌≡◌};
    ghost use Rattle.flow_model.specs.Solutions.{no_solution};

    /// The solution outside of delta iterations; it takes no memory.
    pub fn nothing(alloc: Global) -> Held
        ensures { result ≡ no_solution }
    {
        Held {
            key: Items::new(alloc),
            entries: Vec::new(alloc),
        }
    }

    /// These entries under a key, in the lists as they are.
    pub fn of(key: KeyList, entries: Vec<Row>) -> Held
        ensures { result ≡ record { key = key; entries = entries.items } }
    {
        Held { key, entries }
    }

    /// The numbers of the key's fields.
    pub fn key(&self) -> &[u16]
        ensures { result.now ≡ self.now.key }
    {
        self.key.as_slice()
    }

    /// The entries, in their order.
    pub fn entries(&self) -> &[Row]
        ensures { result.now ≡ self.now.entries }
    {
        self.entries.as_slice()
    }

    /// Puts other entries in the place of those that are held.
    pub fn set_entries(&mut self, entries: Vec<Row>)
        ensures { self.new ≡ record { key = self.old.key; entries = entries.items } }
    {
        self.entries = entries;
    }

    /// The entries in their vector; it takes no memory.
    pub fn into_entries(self) -> Vec<Row>
        ensures { result.items ≡ self.entries }
    {
        let Held { entries, .. } = self;
        entries
    }
}
