// The census program on a directory that goes on in two data sectors. crates/census_tool/images.py wrote `stdin`.
#![tactic(auto)]

use std::io;

fn main(rt: HostRuntime) -> io::Result<()> {
    census_tool::run(&rt)
}
