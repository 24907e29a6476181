// Runs every label of the specification and the published examples of the reference library through the public calls, a printed line
// each. Examples that a call answers otherwise than the library say so in their line.
#![tactic(auto)]

mod distances;
mod headers;
mod say;
mod texts;
mod unit_reader;

use say::Out;
use std::fmt;

fn labels(out: &mut Out<'_>) -> fmt::Result {
    headers::numbers(out)?;
    headers::labels(out)?;
    texts::labels(out)?;
    texts::short(out)?;
    texts::published(out)?;
    unit_reader::labels(out)?;
    unit_reader::published(out)?;
    distances::labels(out)
}

fn main(rt: HostRuntime) {
    let _ = labels(&mut Out::new(&rt));
}
