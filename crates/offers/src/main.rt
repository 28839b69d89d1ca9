// The foreman's program: it reads what `sheet` reads, and writes the plan test's answer, what every board offers, and then
// how the sheet ends. All of it is the library's.

#![tactic(auto)]

fn main(rt: HostRuntime) {
    printing::print(rt.stdin(), rt.stdout(), true);
}
