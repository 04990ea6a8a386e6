// The census program on input of 64,001 bytes. crates/census_tool/images.py wrote `stdin`.
#![tactic(auto)]

use std::io;

fn main(rt: HostRuntime) -> io::Result<()> {
    census_tool::run(&rt)
}
