ghost use Rattle.std.specs.Prelude.{◌≡◌, ◌≢◌, ◌+◌, ◌^◌, ◌<◌, vec_len, slice_set, slice_index_or};
ghost use Rattle.outside_memory.specs.Places.{place_after};
ghost use Rattle.flow_outside.specs.Slots.{living_in};

use flow_outside::slots::{READERS, free_number};

/// Where a reader is: in which file, and behind how many of its bytes.
#[derive(Clone, Copy, Debug)]
pub(crate) struct Place {
    pub(crate) file: usize,
    pub(crate) at: usize,
}

/// Starts a reader at the first byte of a file, and gives its number, which no living reader had.
pub(crate) fn start(places: &mut Vec<Option<Place>>, file: usize) -> u32
    requires reserved { vec_len places.old ≡ READERS }
    requires room { living_in places.old.items < READERS }
    ensures within { result < READERS }
    ensures fresh { slice_index_or places.old.items result None ≡ None }
    ensures started { places.new.items ≡ slice_set places.old.items result (Some (record { file = file; at = 0 })) }
{
    let id = free_number(places);
    places[id] = Some(Place { file, at: 0 });
    id as u32
}

/// The place of a living reader.
pub(crate) fn place_of_reader(places: &Vec<Option<Place>>, id: u32) -> Place
    requires { slice_index_or places.now.items id None ≢ None }
    ensures { slice_index_or places.now.items id None ≡ Some result }
{
    match places.get(id as usize) {
        Some(Some(place)) => *place,
        _ => unreachable!(),
    }
}

/// Moves a living reader on by `count` bytes; 0 ends it.
pub(crate) fn go_on(places: &mut Vec<Option<Place>>, id: u32, place: Place, count: usize)
    requires within { id < vec_len places.old }
    requires fits { place.at + count < 2 ^ 64 }
    ensures { places.new.items ≡ slice_set places.old.items id (place_after place count) }
{
    places[id as usize] = if count == 0 {
        None
    } else {
        Some(Place {
            file: place.file,
            at: place.at + count,
        })
    };
}
