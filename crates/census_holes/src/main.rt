// The census program on two files behind slots that were never used. crates/census_tool/images.py wrote `stdin`.
#![tactic(auto)]

use std::io;

fn main(rt: HostRuntime) -> io::Result<()> {
    census_tool::run(&rt)
}
