// Split and the lookups: points_of, link_to and is_watched.
use crate::say::{decimal, one, pair, text};
use plan::{
    FARTHEST, LINK, MOST_RECORDS, POINT, Plan, Record, is_watched, link_to, points_of, split,
};
use std::io::Stdout;

pub const HAUL_RECORDS: u32 = 9;

fn splits(out: Stdout, name: &[u8], d: i32) {
    let g = split(d);
    pair(out, name, g.up, g.down);
}

pub fn signed_numbers(out: Stdout) {
    splits(out, b"split -2147483648", -2147483648);
    splits(out, b"split -100000", -FARTHEST);
    splits(out, b"split -1", -1);
    splits(out, b"split 0", 0);
    splits(out, b"split 1", 1);
    splits(out, b"split 100000", FARTHEST);
    splits(out, b"split 2147483647", 2147483647);
}

// The link that ends at a point, and whether the point is watched.
fn finds(out: Stdout, name: &[u8], p: Plan, c: u8) {
    text(out, name);
    match link_to(p, c) {
        Some(i) => {
            text(out, b": at ");
            decimal(out, i);
        }
        None => text(out, b": nothing"),
    }
    if is_watched(p, c) {
        text(out, b", watched\n");
    } else {
        text(out, b", not watched\n");
    }
}

pub fn of_the_haul(out: Stdout, haul: Plan) {
    one(out, b"points of the haul", points_of(haul));
    finds(out, b"the haul's link to 0", haul, 0);
    finds(out, b"the haul's link to 1", haul, 1);
    finds(out, b"the haul's link to 2", haul, 2);
    finds(out, b"the haul's link to 3", haul, 3);
    finds(out, b"the haul's link to 255", haul, 255);
}

pub fn of_two_links(out: Stdout, plan: Plan) {
    finds(out, b"of two links, that to 2", plan, 2);
    finds(out, b"of two links, that to 4", plan, 4);
}

// The plan with another count.
fn counted(plan: Plan, count: u32) -> Plan {
    let mut p = plan;
    p.count = count;
    p
}

// The plan with another record at place i.
fn replaced(plan: Plan, i: usize, r: Record) -> Plan {
    let mut p = plan;
    if i < MOST_RECORDS {
        p.records[i] = r;
    }
    p
}

// A record with every field set.
fn garbage(kind: u8) -> Record {
    Record {
        kind,
        a: 255,
        b: 255,
        first: -2147483648,
        second: 2147483647,
        code: 4294967295,
    }
}

// A link from 3 to 2 of 20 to 50 minutes.
fn second_link() -> Record {
    Record {
        kind: LINK,
        a: 3,
        b: 2,
        first: 20,
        second: 50,
        code: 0,
    }
}

fn points_in(out: Stdout, name: &[u8], p: Plan) {
    one(out, name, points_of(p));
}

// How many points there are in plans that no file could hold.
pub fn odd_points(out: Stdout, haul: Plan) {
    points_in(out, b"points of no records", counted(haul, 0));
    points_in(out, b"points of 3 records", counted(haul, 3));
    points_in(
        out,
        b"points of 4294967295 records",
        counted(haul, 4294967295),
    );
    points_in(
        out,
        b"points with garbage in unused room",
        replaced(haul, 9, garbage(POINT)),
    );
    points_in(
        out,
        b"points with garbage in use",
        replaced(haul, 8, garbage(POINT)),
    );
}

// The link to a point in such plans.
pub fn odd_links(out: Stdout, haul: Plan) {
    finds(out, b"the link to 2 in 4 records", counted(haul, 4), 2);
    finds(out, b"the link to 2 in 5 records", counted(haul, 5), 2);
    finds(
        out,
        b"the link to 2 in 4294967295 records",
        counted(haul, 4294967295),
        2,
    );
    finds(
        out,
        b"of two links to 2, the first",
        replaced(haul, 8, second_link()),
        2,
    );
    finds(
        out,
        b"a link to 255 in use",
        replaced(haul, 8, garbage(LINK)),
        255,
    );
    finds(
        out,
        b"a link to 255 in unused room",
        replaced(haul, 9, garbage(LINK)),
        255,
    );
}
