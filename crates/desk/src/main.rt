// A desk for trying every call of the library on the image in a file.
#![tactic(auto)]

use std::rt::Env;

fn main(rt: HostRuntime) {
    let mut path = io::buffer();
    let Ok(length) = rt.arg(1, &mut path) else {
        let _ = println!(rt; "desk FILE: the file of an image is to be named");
        return;
    };
    console::desk(&rt, &mut rt.stdin(), &path[..length]);
}
