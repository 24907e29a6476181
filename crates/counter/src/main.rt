// The counter's program.
#![tactic(auto)]

fn main(rt: HostRuntime) {
    files::counter::run(rt);
}
