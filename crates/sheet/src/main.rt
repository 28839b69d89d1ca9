// The printing program of document 01: standard input is a plan file, a record of sixteen bytes 255, and event records; one
// line is written for each event, and then how the sheet ends. All of it is the library's.

#![tactic(auto)]

fn main(rt: HostRuntime) {
    printing::print(rt.stdin(), rt.stdout(), false);
}
