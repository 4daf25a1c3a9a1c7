// Answers the lines of a test, one by one: every command of the desk, and those by which an image is made and bytes are decoded.
#![tactic(auto)]

fn main(rt: HostRuntime) {
    console::trial(&rt, &mut rt.stdin());
}
