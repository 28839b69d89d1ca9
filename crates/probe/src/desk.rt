// What the requests have put on the desk so far: a plan, a board, how much of the lent buffer counts, and how often a call
// is made.
use crate::answered;
use crate::block::{Asked, Block, signed};
use board::{Board, ROOM};
use plan::{MOST_RECORDS, Plan, Record, empty};
use std::io::Stdout;

#[derive(Clone, Copy)]
pub struct Desk {
    pub plan: Plan,
    pub board: Board,
    // where the next record goes
    pub next: u32,
    // so many bytes of the buffer count
    pub length: usize,
    // a call is made so many times before the one that is answered
    pub times: u32,
}

pub fn set_byte(buffer: &mut [u8], at: usize, b: u8) {
    if at < buffer.len() {
        buffer[at] = b;
    }
}

// Four bytes of a number into the buffer.
fn set_word(buffer: &mut [u8], at: u32, x: u32) {
    let from = at as usize;
    set_byte(buffer, from, (x % 256) as u8);
    set_byte(buffer, from + 1, (x / 256 % 256) as u8);
    set_byte(buffer, from + 2, (x / 256 / 256 % 256) as u8);
    set_byte(buffer, from + 3, (x / 256 / 256 / 256 % 256) as u8);
}

impl Desk {
    pub fn new() -> Desk {
        let plan = empty(0);
        let board = board::fresh();
        Desk {
            plan,
            board,
            next: 0,
            length: 0,
            times: 0,
        }
    }

    // The plan's count, and where the next record goes.
    fn counted(self, block: Block) -> Desk {
        let mut desk = self;
        desk.plan.count = block.first;
        desk.next = block.second;
        desk
    }

    // The next record of the plan.
    fn recorded(self, block: Block) -> Desk {
        let mut plan = self.plan;
        let at = self.next as usize % MOST_RECORDS;
        plan.records[at] = Record {
            kind: block.p,
            a: block.q,
            b: block.r,
            first: signed(block.first),
            second: signed(block.second),
            code: block.third,
        };
        let mut desk = self;
        desk.plan = plan;
        desk.next = self.next.wrapping_add(1);
        desk
    }

    // The board's clock and its done points.
    fn clocked(self, block: Block) -> Desk {
        let mut desk = self;
        desk.board.clock = block.first;
        desk.board.done = block.second;
        desk
    }

    // One minute of the board.
    fn timed(self, block: Block) -> Desk {
        let mut board = self.board;
        let at = block.p as usize % ROOM;
        board.minutes[at] = block.first;
        let mut desk = self;
        desk.board = board;
        desk
    }

    // One event number of the board.
    fn numbered(self, block: Block) -> Desk {
        let mut board = self.board;
        let at = block.p as usize % ROOM;
        board.calls[at] = block.first;
        let mut desk = self;
        desk.board = board;
        desk
    }

    // The buffer's length, and all its bytes.
    fn filled(self, block: Block, buffer: &mut [u8]) -> Desk {
        buffer.fill(block.p);
        let mut desk = self;
        desk.length = block.first as usize;
        desk
    }

    // Eight bytes of the buffer.
    fn put(self, block: Block, buffer: &mut [u8]) -> Desk {
        set_word(buffer, block.first, block.second);
        set_word(buffer, block.first.wrapping_add(4), block.third);
        self
    }

    fn repeated(self, block: Block) -> Desk {
        let mut desk = self;
        desk.times = block.first;
        desk
    }

    // A request that puts something on the desk, or else a call.
    pub fn next(self, out: Stdout, block: Block, buffer: &mut [u8]) -> Desk {
        match block.asked {
            Asked::Count => self.counted(block),
            Asked::Record => self.recorded(block),
            Asked::Clock => self.clocked(block),
            Asked::Minute => self.timed(block),
            Asked::Fill => self.filled(block, buffer),
            Asked::Put => self.put(block, buffer),
            Asked::Repeat => self.repeated(block),
            Asked::Number => self.numbered(block),
            _ => answered::called(out, self, block, buffer),
        }
    }
}
