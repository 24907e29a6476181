// The standby hall's program.
#![tactic(auto)]

fn main(rt: HostRuntime) {
    files::standby::run(rt);
}
