// The rules for one record, numbers 4 to 11 of document 01 and 15 of document 02: the one test of records that reading and
// checking share. What the rules ask of earlier records is kept by value in `Seen`, each watched point's link in a table of
// `Ending`s, and the points that ordinary records lead to in a set for each point that they lead from, so that a record is
// tested in a few steps, however many came before it. An inner room: it serves `plan`, which tests record after record, and
// `read_one` asks that no more were seen than a plan has room for.

#![tactic(auto)]

ghost use Rattle.std.specs.Prelude.{◌≡◌};
ghost use Rattle.records.specs.Records.{point, link, ordinary, wait};
ghost use Rattle.rules.specs.OneRecord.{named, number_of};
ghost use Rattle.rules.specs.Inside.{told, no_ending, kept_of, broken_of, Few, fresh, with_record, one_of, number_in, ending_after, seconds_after};

use points::{has, with};
use records::{
    FARTHEST, LINK, MOST_LINKS, MOST_ORDINARY, MOST_POINTS, MOST_WAITS, ORDINARY, POINT, Record,
    WAIT,
};

// The reply numbers 4 to 11 and 15, and 0 for what is not refused.
pub const ACCEPTED: u32 = 0;

pub const UNKNOWN_KIND: u32 = 4;

pub const KIND_FALLS: u32 = 5;

pub const TOO_MANY: u32 = 6;

pub const NOT_ZERO: u32 = 7;

pub const NOT_NAMED: u32 = 8;

pub const SAME_POINT: u32 = 9;

pub const NOT_JOINED: u32 = 10;

pub const OUT_OF_BOUNDS: u32 = 11;

pub const TWIN: u32 = 15;

// What the records so far have said: the kind of the last, how many of each kind, and which points end a link.
#[derive(Clone, Copy)]
pub struct Seen {
    pub kind: u8,
    pub points: u32,
    pub links: u32,
    pub ordinary: u32,
    pub waits: u32,
    pub watched: u32,
}

// Of the link that ends at a point, its A and its y.
#[derive(Clone, Copy)]
pub struct Ending {
    pub from: u8,
    pub longest: i32,
}

// The rules 5 to 11 and 15, each kept or not.
#[derive(Clone, Copy)]
pub struct Kept {
    pub order: bool,
    pub room: bool,
    pub zeros: bool,
    pub named: bool,
    pub apart: bool,
    pub single: bool,
    pub joined: bool,
    pub bounded: bool,
}

impl Kept {
    // The number of the first that is not kept.
    #[tactic(auto, unfolding(crate::specs::Inside::broken_of))]
    fn first_broken(self) -> u32
        ensures { result ≡ broken_of self }
    {
        if !self.order {
            return KIND_FALLS;
        }
        if !self.room {
            return TOO_MANY;
        }
        if !self.zeros {
            return NOT_ZERO;
        }
        if !self.named {
            return NOT_NAMED;
        }
        if !self.apart {
            return SAME_POINT;
        }
        if !self.single {
            return TWIN;
        }
        if !self.joined {
            return NOT_JOINED;
        }
        if !self.bounded {
            return OUT_OF_BOUNDS;
        }
        ACCEPTED
    }
}

impl Seen {
    // No records yet.
    pub fn none() -> Seen
        ensures { result ≡ fresh }
    {
        Seen {
            kind: 0,
            points: 0,
            links: 0,
            ordinary: 0,
            waits: 0,
            watched: 0,
        }
    }

    // Both points of a record are there.
    fn names(self, r: Record) -> bool
        ensures { result ≡ named (told self no_ending 0) link r }
    {
        (u32::from(r.a) < self.points) & (u32::from(r.b) < self.points)
    }

    fn point(self, r: Record, reserved: u8) -> Kept
        ensures { result ≡ kept_of point (told self no_ending 0) r reserved }
    {
        Kept {
            order: self.kind <= r.kind,
            room: self.points < MOST_POINTS,
            zeros: (r.b == 0) & ((r.first == 0) & ((r.second == 0) & (reserved == 0))),
            named: u32::from(r.a) == self.points,
            apart: true,
            single: true,
            joined: true,
            bounded: true,
        }
    }

    fn link(self, r: Record, reserved: u8) -> Kept
        ensures { result ≡ kept_of link (told self no_ending 0) r reserved }
    {
        Kept {
            order: self.kind <= r.kind,
            room: self.links < MOST_LINKS,
            zeros: (r.code == 0) & (reserved == 0),
            named: self.names(r),
            apart: r.a != r.b,
            single: true,
            joined: !has(self.watched, r.b),
            bounded: (1 <= r.first) & ((r.first < r.second) & (r.second <= FARTHEST)),
        }
    }

    // `seconds` are the points that earlier ordinary records lead to from its first.
    fn ordinary(self, r: Record, reserved: u8, seconds: u32) -> Kept
        ensures { result ≡ kept_of ordinary (told self no_ending seconds) r reserved }
    {
        Kept {
            order: self.kind <= r.kind,
            room: self.ordinary < MOST_ORDINARY,
            zeros: (r.second == 0) & ((r.code == 0) & (reserved == 0)),
            named: self.names(r),
            apart: r.a != r.b,
            single: !has(seconds, r.b),
            joined: true,
            bounded: (-FARTHEST <= r.first) & (r.first <= FARTHEST),
        }
    }

    fn wait(self, r: Record, reserved: u8, end: Ending) -> Kept
        ensures { result ≡ kept_of wait (told self end 0) r reserved }
    {
        Kept {
            order: self.kind <= r.kind,
            room: self.waits < MOST_WAITS,
            zeros: (r.second == 0) & ((r.code == 0) & (reserved == 0)),
            named: self.names(r),
            apart: r.a != r.b,
            single: true,
            joined: has(self.watched, r.b) & (!has(self.watched, r.a) & (r.a != end.from)),
            bounded: (1 <= r.first) & (r.first <= end.longest),
        }
    }

    // The number of a record, by its kind; `end` is the link that ends at its second point, and `seconds` are the points that
    // ordinary records lead to from its first.
    #[tactic(auto, unfolding(crate::specs::OneRecord::number_for_with, crate::specs::Inside::broken_of))]
    fn number(self, r: Record, reserved: u8, end: Ending, seconds: u32) -> u32
        ensures { result ≡ number_of (told self end seconds) r reserved }
    {
        let kind = r.kind;
        match kind {
            1 => self.point(r, reserved).first_broken(),
            2 => self.link(r, reserved).first_broken(),
            3 => self.ordinary(r, reserved, seconds).first_broken(),
            4 => self.wait(r, reserved, end).first_broken(),
            0 | 5..=255 => UNKNOWN_KIND,
        }
    }

    // What is seen with a record more.
    fn with_record(self, r: Record) -> Seen
        requires { Few self }
        ensures { result ≡ with_record self r }
    {
        let mut next = self;
        next.kind = r.kind;
        if r.kind == ORDINARY {
            next.ordinary += 1;
            return next;
        }
        if r.kind == WAIT {
            next.waits += 1;
            return next;
        }
        if r.kind == LINK {
            next.links += 1;
            next.watched = with(self.watched, r.b);
            return next;
        }
        next.points += u32::from(r.kind == POINT);
        next
    }

    // The one-record reader: the record after those seen, tested. What is seen with it, or its number.
    #[tactic(auto, unfolding(crate::specs::Inside::one_of))]
    pub fn read_one(self, r: Record, reserved: u8, end: Ending, seconds: u32) -> Result<Seen, u32>
        requires { Few self }
        ensures { result ≡ one_of self end seconds r reserved }
    {
        let number = self.number(r, reserved, end, seconds);
        if number == ACCEPTED {
            Ok(self.with_record(r))
        } else {
            Err(number)
        }
    }
}

// Document 01's number for each answer of the one-record reader.
pub fn number_in(one: Result<Seen, u32>) -> u32
    ensures { result ≡ number_in one }
{
    match one {
        Ok(_) => ACCEPTED,
        Err(number) => number,
    }
}

// What a point's place in the table of links holds after r, which ends there if it is a link.
pub fn ending_after(r: Record, end: Ending) -> Ending
    ensures { result ≡ ending_after r end }
{
    if r.kind == LINK {
        Ending {
            from: r.a,
            longest: r.second,
        }
    } else {
        end
    }
}

// What a point's set in the table of seconds holds after r, which leads from there if it is an ordinary record.
pub fn seconds_after(r: Record, seconds: u32) -> u32
    ensures { result ≡ seconds_after r seconds }
{
    if r.kind != ORDINARY {
        return seconds;
    }
    with(seconds, r.b)
}
