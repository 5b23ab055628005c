ghost use Rattle.std.specs.Prelude.{◌≡◌, ◌<◌, true};
ghost use Rattle.post_table.specs.Seats.{MadeBy};
ghost use Rattle.post_table.specs.Views.{both_of, chosen, is_here, learned, looked, parted, without, ShowsExchange};

use crate::post::Post;
use crate::seats::{MainSeat, WorkerSeat};
use crate::steps::{meet_place, part_place};

impl Post {
    /// A seat for a worker that has none. It has the worker's lists, which leave the main seat's view, and
    /// knows what the main seat knows. It takes no memory.
    pub fn part(&self, main: &mut MainSeat, worker: u32) -> WorkerSeat
        requires made { MadeBy self.now main.old }
        requires home { (worker < self.now.workers) × (is_here main.old.view worker ≡ true) }
        ensures made { MadeBy self.now result }
        ensures stays { MadeBy self.now main.new }
        ensures seat { result.view ≡ parted worker main.old.view }
        ensures main { main.new.view ≡ without worker (chosen worker main.new.view.last main.old.view) }
    {
        let place = part_place(&self.boxes, &mut main.place, worker);
        WorkerSeat {
            place,
            number: worker,
        }
    }

    /// Takes a worker's seat in. The main seat then has that worker's lists, and it knows what the seat
    /// knew and all lists that it has. It takes no memory.
    pub fn meet(&self, main: &mut MainSeat, seat: WorkerSeat)
        requires main { MadeBy self.now main.old }
        requires seat { MadeBy self.now seat }
        ensures made { MadeBy self.now main.new }
        ensures view { main.new.view ≡ learned (looked main.new.view.last (both_of main.old.view seat.view)) }
        ensures exchange { ShowsExchange main.new.view }
    {
        let WorkerSeat { place, number: _ } = seat;
        meet_place(&self.boxes, &mut main.place, place);
    }
}
