// What the programs are told of an input: of one that ends, of one that goes on, and of one that cannot be read.
use super::*;
use std::alloc::Allocator;
use std::fmt::Display;
use std::io::{BufRead, Lines};

// Standard input with these bytes. What is told on standard error is let go.
#[derive(Clone, Copy)]
struct Given<'a>(&'a [u8]);

impl<'a> io::Input for Given<'a> {
    type Reader = &'a [u8];

    fn read_line<A: Allocator + Clone>(&self, buf: &mut String<A>) -> io::Result<usize> {
        self.reader().read_line(buf)
    }

    fn lines<A: Allocator>(&self, alloc: A) -> Lines<&'a [u8], A> {
        self.reader().lines(alloc)
    }

    fn reader(&self) -> &'a [u8] {
        self.0
    }
}

impl Eprint for Given<'_> {
    fn eprint<D: Display + Drop>(&self, _value: D) -> io::Result<()> {
        Ok(())
    }

    fn eprintln<D: Display + Drop>(&self, _value: D) -> io::Result<()> {
        Ok(())
    }
}

#[test]
fn an_input_is_read(rt: HostRuntime) {
    let mut file = [0; 65537];
    assert_eq!(rt; read_input(&Given(b"source"), &mut file), Some(6));
    assert_eq!(rt; &file[..7], b"source\0".as_slice());
    let long = [7; 65538];
    assert_eq!(rt; read_input(&Given(&long), &mut file), Some(65537));
    assert_eq!(rt; read_input(&Given(&long[..65536]), &mut file), Some(65536));
}

// Argument 0 is the test's own program. No test is started with 99 arguments.
#[test]
fn an_argument_is_read(rt: HostRuntime) {
    let mut file = [0; 65537];
    let read = read_argument(&rt, 0, b"the test's program", &mut file);
    assert!(rt; read.unwrap_or(0) > 4);
    assert_eq!(rt; &file[..4], b"\x7fELF".as_slice());
    assert_eq!(rt;
        read_argument(&rt, 99, b"no such argument", &mut file),
        None
    );
}

#[test]
fn a_failure_is_told(rt: HostRuntime) {
    let none = Given(b"");
    assert_eq!(rt; told(&none, "an input", Ok(3)), Some(3));
    let why = Error::from(ErrorKind::NotFound);
    assert_eq!(rt; told(&none, "an input", Err(why)), None);
}
