// Shows the figures that document 01 gives to check by, and more that try the same rules, a line a figure: what goes in, and what the
// functions that settle make of it. No answer stands here. The expected lines, in the file `stdout`, were worked by hand from document 01.
// The figures on text amounts, lengths and prices are tried from outside, by tests/test_known.py.
#![tactic(auto)]

mod charges;
mod deviations;
mod shares;

use std::io::Write;
use streams::Trouble;

fn show_figures<W: Write>(output: &mut W) -> Result<(), Trouble> {
    deviations::show_generators(output)?;
    deviations::show_loads(output)?;
    deviations::show_profile_loads(output)?;
    deviations::show_imports(output)?;
    deviations::show_exports(output)?;
    shares::show_shares(output)?;
    charges::show_charges(output)
}

fn main(rt: HostRuntime) {
    let shown = show_figures(&mut rt.stdout());
    streams::tell(&rt, shown);
}
