ghost use Rattle.std.specs.Prelude.{◌≡◌, ◌<◌, vec_len, slice_index_or};
ghost use Rattle.flow_outside.specs.Slots.{living_in};

/// How many readers of a shelf may live at once.
pub const READERS: usize = 80;

/// A number that no living reader has, for a shelf that keeps its readers in slots by number.
pub fn free_number<T>(slots: &Vec<Option<T>>) -> usize
    requires reserved { vec_len slots.now ≡ READERS }
    requires room { living_in slots.now.items < READERS }
    ensures within { result < READERS }
    ensures free { slice_index_or slots.now.items result None ≡ None }
{
    for number in 0..READERS {
        if slots[number].is_none() {
            return number;
        }
    }
    unreachable!()
}
