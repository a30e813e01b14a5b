// A register's file of long records on standard input, as one of short records on standard output.
#![tactic(auto)]

use register_file::Way;

fn main(rt: HostRuntime) {
    register_file::convert(&rt, Way::Down);
}
