// The census program on a file with a sector less than its slot says. crates/census_tool/images.py wrote `stdin`.
#![tactic(auto)]

use std::io;

fn main(rt: HostRuntime) -> io::Result<()> {
    census_tool::run(&rt)
}
