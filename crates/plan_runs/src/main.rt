// Runs of the lookups of the library `plan`: the numbers of a signed one, how many points a plan has, and the link to a point, on
// plans that a file can hold and on others. Standard input has two plan files: the haul, and a plan with two links. One line for
// each case; what must come out is in the file stdout. Reading, checking and writing are run by `probe`, from compare/files.list.
#![tactic(auto)]

mod lookups;
mod say;

use handles::read_full;
use plan::{Plan, plan_in};
use std::io::Stdin;

const HAUL: usize = plan::RECORD_BYTES * lookups::HAUL_RECORDS as usize;

const TWO_LINKS: usize = plan::RECORD_BYTES * 7;

fn haul(input: Stdin) -> Plan {
    let mut bytes = [0u8; HAUL];
    let n = read_full(input, &mut bytes);
    plan_in(plan_file::read(&bytes[..n]))
}

fn two_links(input: Stdin) -> Plan {
    let mut bytes = [0u8; TWO_LINKS];
    let n = read_full(input, &mut bytes);
    plan_in(plan_file::read(&bytes[..n]))
}

fn main(rt: HostRuntime) {
    let input = rt.stdin();
    let out = rt.stdout();
    lookups::signed_numbers(out);
    let plan = haul(input);
    lookups::of_the_haul(out, plan);
    lookups::of_two_links(out, two_links(input));
    lookups::odd_points(out, plan);
    lookups::odd_links(out, plan);
}
