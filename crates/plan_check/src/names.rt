ghost use Rattle.std.specs.Prelude.{◌≡◌, ◌++◌, ◌∷◌, [], IfOk, OnOk};
ghost use Rattle.std.specs.Option.{option_copied};
ghost use Rattle.plan_check.specs.Places.{places_of, places, place_at, is_seen_at, is_seen_at_end, is_outer, number_of, stands_before};
ghost use Rattle.plan_check.specs.FirstPlaces.{ShowsFirst, NotesFirst};

use flow_outside::failure::Memory;
use flow_types::name::Name;
use indexmap::IndexMap;
use plan_text::tree::{TreeNode, TreeOp};
use std::alloc::Global;
use std::marker::Model;

/// A name of a plan, with the number that it stands for and the list in which it can be seen.
#[derive(Debug, Drop)]
struct NamePlace {
    name: Name,
    number: u32,
    /// 0 is the outer list; else the iteration whose body it is.
    home: u32,
}

impl Model for NamePlace {
    ghost use Rattle.plan_check.specs.Places.{Place};

    ghost Value = { Place };

    ghost view = { λ p. record { name = p.name; number = p.number; home = p.home } };
}

impl NamePlace {
    fn is_seen_at(&self, number: u32, home: u32) -> bool
        ensures { result ≡ is_seen_at number home self.now }
    {
        self.number < number && (self.home == home || (self.home == 0 && self.number != home))
    }

    fn is_seen_at_end(&self, iteration: u32) -> bool
        ensures { result ≡ is_seen_at_end iteration self.now }
    {
        self.home == iteration || (self.home == 0 && self.number < iteration)
    }
}

/// All names of a plan in document order, seen as the list of their places. A look-up costs one hash of
/// at most 32 bytes, and copies nothing.
///
/// A name's text stands twice, as the map's key and in its place: a place is lent with its name, and a
/// key can't be borrowed from the list beside it. A plan has at most 128 names.
#[derive(Debug, Drop)]
pub struct Names {
    /// For each name the position of its first place.
    first: IndexMap<String, usize>,
    places: Vec<NamePlace>,
}

impl Model for Names {
    ghost use Rattle.std.specs.Prelude.{List};
    ghost use Rattle.plan_check.specs.Places.{Place};
    ghost use Rattle.plan_check.specs.FirstPlaces.{ShowsFirst};

    ghost Value = { List Place };

    ghost view = { λ names. names.places.items };

    ghost invariant = { λ names. ShowsFirst names.first names.places.items };
}

impl Names {
    /// The names that nodes bring; the cost is two copies of each.
    pub fn of(alloc: Global, nodes: &[TreeNode]) -> Result<Names, Memory>
        ensures { IfOk result (λ names. names ≡ places nodes.now) }
    {
        let mut places = Vec::new(alloc);
        for node in nodes {
            add_places(alloc, &mut places, node)?;
        }
        let first = first_places(alloc, places.as_slice())?;
        Ok(Names { first, places })
    }

    /// The first place of a name.
    fn find(&self, name: &Name) -> Option<&NamePlace>
        ensures { option_copied result ≡ place_at self.now name.now }
    {
        let position = *self.first.get(name.as_str())?;
        self.places.get(position)
    }

    /// The number that a name stands for at a node of this number in the body of `home`, or in the
    /// outer list at home 0; 0 where the name isn't visible.
    pub fn number_at(&self, number: u32, home: u32, name: &Name) -> u32
        ensures { result ≡ number_of self.now (is_seen_at number home) name.now }
    {
        match self.find(name) {
            Some(place) if place.is_seen_at(number, home) => place.number,
            _ => 0,
        }
    }

    /// The number that a name stands for at the end of an iteration's body; 0 where the name isn't
    /// visible.
    pub fn number_at_end(&self, iteration: u32, name: &Name) -> u32
        ensures { result ≡ number_of self.now (is_seen_at_end iteration) name.now }
    {
        match self.find(name) {
            Some(place) if place.is_seen_at_end(iteration) => place.number,
            _ => 0,
        }
    }

    /// The number of the outer list's node of a name; 0 where there is none.
    pub fn outer_number(&self, name: &Name) -> u32
        ensures { result ≡ number_of self.now is_outer name.now }
    {
        match self.find(name) {
            Some(place) if place.home == 0 => place.number,
            _ => 0,
        }
    }

    /// Whether a name stands at a node before the one of this number.
    pub fn stands_before(&self, number: u32, name: &Name) -> bool
        ensures { result ≡ stands_before self.now number name.now }
    {
        match self.find(name) {
            Some(place) => place.number < number,
            None => false,
        }
    }
}

/// Adds the names that a node brings: its own, and an iteration's bind name.
fn add_places(alloc: Global, places: &mut Vec<NamePlace>, node: &TreeNode) -> Result<(), Memory>
    ensures { OnOk result (places.new.items ≡ places.old.items ++ places_of node.now) }
{
    add_place(alloc, places, &node.name, node.number, node.home)?;
    match &node.op {
        TreeOp::Bulk { bind, .. } => add_place(alloc, places, bind, node.number, node.number),
        TreeOp::Delta { bind, .. } => add_place(alloc, places, bind, node.number, node.number),
        _ => Ok(()),
    }
}

fn add_place(
    alloc: Global,
    places: &mut Vec<NamePlace>,
    name: &Name,
    number: u32,
    home: u32,
) -> Result<(), Memory>
    ensures { OnOk result (places.new.items ≡ places.old.items ++ record { name = name.now; number = number; home = home } ∷ []) }
{
    let name = name.copy(alloc)?;
    match places.push(NamePlace { name, number, home }) {
        Ok(()) => Ok(()),
        Err(_) => Err(Memory),
    }
}

/// The position of each name's first place among these.
fn first_places(alloc: Global, places: &[NamePlace]) -> Result<IndexMap<String, usize>, Memory>
    ensures { IfOk result (λ first. ShowsFirst first places.now) }
{
    let mut first = IndexMap::new(alloc);
    for position in 0..places.len() {
        let place = &places[position];
        note_first(alloc, &mut first, &place.name, position)?;
    }
    Ok(first)
}

/// Notes the position of a name, unless it has one already.
fn note_first(
    alloc: Global,
    first: &mut IndexMap<String, usize>,
    name: &Name,
    position: usize,
) -> Result<(), Memory>
    ensures { OnOk result (NotesFirst first.old name.now position first.new) }
{
    let text = name.as_str();
    if first.contains_key(text) {
        return Ok(());
    }
    let key = String::from_str(alloc, text)?;
    first.insert(key, position)?;
    Ok(())
}
