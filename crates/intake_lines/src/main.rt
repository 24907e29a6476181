// Standard input to standard output by lines; tried on the specification's example.
#![tactic(auto)]

fn main(rt: HostRuntime) {
    line_program::run(rt);
}
