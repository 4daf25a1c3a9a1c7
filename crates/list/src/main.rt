// Lists a card: reads one image from standard input, and prints its header line and a line for each product, or why it is refused.
#![tactic(auto)]

use std::os::fd::AsRawFd;

fn main(rt: HostRuntime) {
    let mut buf = [0u8; console::LARGEST_ACCEPTED + 1];
    // `read_full` counts what it read where the input ends, which `read_exact` does not.
    let n = io::read_full(rt.stdin().as_raw_fd(), &mut buf);
    console::list(&rt, &buf[..n]);
}
