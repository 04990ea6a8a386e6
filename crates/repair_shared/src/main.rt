// The repair program on two files that share their last sector. crates/census_tool/images.py wrote `stdin`.
#![tactic(auto)]

use std::io;

fn main(rt: HostRuntime) -> io::Result<()> {
    repair_tool::run(&rt)
}
