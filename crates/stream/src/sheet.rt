// A sheet by value: the plan part as far as it has come, then the plan and the last reply with its board, and what there is
// to print. The bytes of the plan part are not kept: they stand at the front of the buffer that the input is read into,
// which has room for more than any plan.
ghost use Rattle.std.specs.Prelude.{◌≡◌, ◌≤◌};
ghost use Rattle.stream.specs.Sheets.{start, turned, is_mark, begun_of, longer, played_of, quiet, tail, next_of, ended_of};

use crate::front::read_front;
use board::Taken;
use plan::{ACCEPTED, Plan, RECORD_BYTES, empty};

// Still in the plan part; among the events; over, since the plan is refused.
#[derive(Clone, Copy, PartialEq, Eq)]
pub enum Stage {
    Planning,
    Playing,
    Over,
}

// What there is to print: nothing; a refused plan; a plan that is read; an event; an unfinished last record.
#[derive(Clone, Copy, PartialEq, Eq)]
pub enum News {
    Nothing,
    Refused,
    Begun,
    Event,
    Tail,
}

#[derive(Clone, Copy)]
pub struct Sheet {
    pub stage: Stage,
    pub news: News,
    // the bytes of the plan part
    pub length: u64,
    // how many events there were, and the number of the last
    pub events: u64,
    pub last: u64,
    pub plan: Plan,
    pub taken: Taken,
}

// A record of sixteen bytes 255.
pub fn is_mark(bytes: &[u8]) -> bool
    ensures { result ≡ is_mark bytes.now }
{
    bytes.iter().all(|&b| b == 255)
}

impl Sheet {
    // Nothing has come yet.
    pub fn new() -> Sheet
        ensures { result ≡ start }
    {
        let plan = empty(0);
        let board = board::fresh();
        let taken = Taken {
            number: ACCEPTED,
            place: 0,
            board,
        };
        Sheet {
            stage: Stage::Planning,
            news: News::Nothing,
            length: 0,
            events: 0,
            last: 0,
            plan,
            taken,
        }
    }

    // The sheet at another stage, with other news, plan and reply.
    fn turned(self, stage: Stage, news: News, plan: Plan, taken: Taken) -> Sheet
        ensures { result ≡ turned self stage news plan taken }
    {
        Sheet {
            stage,
            news,
            length: self.length,
            events: self.events,
            last: self.last,
            plan,
            taken,
        }
    }

    // The plan part has ended: its plan, or its refusal.
    fn begun(self, front: &[u8]) -> Sheet
        ensures { result ≡ begun_of self front.now }
    {
        let before = self.taken;
        match read_front(self.length, front) {
            Ok(plan) => self.turned(Stage::Playing, News::Begun, plan, before),
            Err(refusal) => {
                let plan = self.plan;
                let board = before.board;
                let taken = Taken {
                    number: refusal.number,
                    place: refusal.place,
                    board,
                };
                self.turned(Stage::Over, News::Refused, plan, taken)
            }
        }
    }

    // So many bytes more of the plan part.
    pub fn longer(self, n: u64) -> Sheet
        ensures { result ≡ longer self n }
    {
        let mut sheet = self;
        sheet.news = News::Nothing;
        sheet.length = self.length.wrapping_add(n);
        sheet
    }

    // An event.
    fn played(self, event: &[u8]) -> Sheet
        ensures { result ≡ played_of self event.now }
    {
        let plan = self.plan;
        let before = self.taken;
        let board = before.board;
        let reply = board.take(plan, event);
        Sheet {
            stage: self.stage,
            news: News::Event,
            length: self.length,
            events: self.events.wrapping_add(1),
            last: self.events,
            plan,
            taken: reply,
        }
    }

    // Nothing to print.
    fn quiet(self) -> Sheet
        ensures { result ≡ quiet self }
    {
        let mut sheet = self;
        sheet.news = News::Nothing;
        sheet
    }

    // An unfinished last record.
    fn tailed(self) -> Sheet
        ensures { result ≡ turned self self.stage tail self.plan self.taken }
    {
        let mut sheet = self;
        sheet.news = News::Tail;
        sheet
    }

    // A record more.
    pub fn next(self, bytes: &[u8], front: &[u8]) -> Sheet
        ensures { result ≡ next_of self bytes.now front.now }
    {
        match self.stage {
            Stage::Planning if is_mark(bytes) => self.begun(front),
            Stage::Planning => self.longer(RECORD_BYTES as u64),
            Stage::Playing => self.played(bytes),
            Stage::Over => self.quiet(),
        }
    }

    // The input has ended, with so many bytes of an unfinished record.
    pub fn ended(self, left: u64, front: &[u8]) -> Sheet
        ensures { result ≡ ended_of self left front.now }
    {
        match self.stage {
            Stage::Planning => self.longer(left).begun(front),
            Stage::Playing if left != 0 => self.tailed(),
            Stage::Playing => self.quiet(),
            Stage::Over => self.quiet(),
        }
    }
}
