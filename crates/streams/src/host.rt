// What a program is given: the runtime, and the standard streams as a reader and two writers.
use std::io::{Stderr, Stdin, Stdout};
use std::rt::Runtime;

pub trait Host: Runtime {
    fn input(&self) -> Stdin;

    fn output(&self) -> Stdout;

    fn errors(&self) -> Stderr;
}

impl Host for HostRuntime {
    fn input(&self) -> Stdin {
        self.stdin()
    }

    fn output(&self) -> Stdout {
        self.stdout()
    }

    fn errors(&self) -> Stderr {
        self.stderr()
    }
}
