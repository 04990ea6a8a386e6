// The repair program on a file whose chain goes round. crates/census_tool/images.py wrote `stdin`.
#![tactic(auto)]

use std::io;

fn main(rt: HostRuntime) -> io::Result<()> {
    repair_tool::run(&rt)
}
