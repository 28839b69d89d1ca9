// Some events at once: where only the board after them counts, the plan is passed on and tested once for many of them.
ghost use Rattle.std.specs.Prelude.{◌≡◌};
ghost use Rattle.board.specs.Streams.{said_all_of};
ghost use Rattle.stream.specs.Many.{all_played_of};

use crate::sheet::{News, Sheet};
use board::SAID;
use events::fewer;
use plan::RECORD_BYTES;

impl Sheet {
    // The whole events of some bytes one after the other, as far as there is room to say something of each.
    pub fn all_played(self, events: &[u8], room: &mut [u32]) -> Sheet
        ensures sheet { result ≡ all_played_of self events.now room.old }
        ensures room { room.new ≡ said_all_of self.plan self.taken.board events.now room.old }
    {
        let plan = self.plan;
        let before = self.taken;
        let board = before.board;
        let n = fewer(events.len() / RECORD_BYTES, room.len() / SAID);
        let reply = board.take_all(plan, events, room);
        Sheet {
            stage: self.stage,
            news: News::Nothing,
            length: self.length,
            events: self.events.wrapping_add(n as u64),
            last: self.last,
            plan,
            taken: reply,
        }
    }
}
