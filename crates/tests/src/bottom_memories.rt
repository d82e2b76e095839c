//! What both memories do alike, each shown through the trait.
use crate::answers::{done, fault, line};
use crate::fetching::fetch;
use crate::waiting::{make_steps, read_in_steps};
use bottom::ordered::Ordered;
use bottom::scripted::Scripted;
use memory::bad_line::BadLine;
use memory::memory::Memory;
use memory::refusal::Refusal;
use memory::replies::{Fault, Status};
use std::process::Abort;
use std::test::Fail;

const IMAGE: [u8; 40] = *b"line number zero, and line one..trailing";

const FAULT: Fault = Fault {
    level: 3,
    line: 1,
    cause: 40,
};

// Line 1 is bad twice and line 0 only in the 33rd pair; all others name a line that there is not.
fn bad_lines() -> [BadLine; 33] {
    let mut bad = [BadLine { line: 99, cause: 1 }; 33];
    bad[5] = BadLine { line: 1, cause: 40 };
    bad[6] = BadLine { line: 1, cause: 41 };
    bad[32] = BadLine { line: 0, cause: 42 };
    bad
}

// Of a memory that answers one request in each step, the oldest first.
fn faults_are_shown<M: Memory>(rt: &impl Abort, memory: &mut M) -> Result<(), Fail> {
    let bad_read = memory.read(1)?;
    let bad_write = memory.write(1, u16::MAX, *b"0123456789abcdef")?;
    let good_write = memory.write(0, 0, *b"0123456789abcdef")?;
    let mut buffer = [b'-'; 16];
    assert!(rt; memory.step(&mut buffer) == fault(bad_read, FAULT));
    assert!(rt; memory.step(&mut buffer) == fault(bad_write, FAULT));
    assert!(rt; memory.step(&mut buffer) == done(good_write));
    assert!(rt; memory.step(&mut buffer) == None);
    assert!(rt; buffer == [b'-'; 16]);
    Ok(())
}

// Of the same memory: what is due is settled when a request is taken.
fn a_read_shows_what_was_there<M: Memory>(rt: &impl Abort, memory: &mut M) -> Result<(), Fail> {
    let before = memory.read(0)?;
    let write = memory.write(0, 0x8001, *b"0123456789abcdef")?;
    let after = memory.read(0)?;
    let mut buffer = [b'-'; 16];
    assert!(rt; memory.step(&mut buffer) == line(before));
    assert!(rt; buffer == *b"line number zero");
    assert!(rt; memory.step(&mut buffer) == done(write));
    assert!(rt; memory.step(&mut buffer) == line(after));
    assert!(rt; buffer == *b"0ine number zerf");
    Ok(())
}

// Of the same memory, with the pace 1.
fn steps_bring_answers<M: Memory>(rt: &impl Abort, memory: &mut M) -> Result<(), Fail> {
    let mut buffer = [b'-'; 16];
    assert!(rt; read_in_steps(memory, 0, 1, &mut buffer)? == Some(Status::Line));
    assert!(rt; buffer == *b"0ine number zerf");
    assert!(rt; read_in_steps(memory, 1, 1, &mut buffer)? == Some(Status::Fault(FAULT)));
    assert!(rt; read_in_steps(memory, 2, 9, &mut buffer) == Err(Refusal::NoLine));
    // the first is still open while the second is waited for
    assert!(rt; read_in_steps(memory, 0, 0, &mut buffer)? == None);
    assert!(rt; read_in_steps(memory, 0, 1, &mut buffer)? == None);
    make_steps(memory, 1);
    assert!(rt; memory.step(&mut buffer) == None);
    Ok(())
}

#[test]
fn an_ordered_memory_shows_faults(rt: HostRuntime) -> Result<(), Fail> {
    let mut image = IMAGE;
    let mut memory = Ordered::new(&mut image, 3, &bad_lines(), 1);
    faults_are_shown(&rt, &mut memory)?;
    a_read_shows_what_was_there(&rt, &mut memory)?;
    steps_bring_answers(&rt, &mut memory)?;
    let held = memory.into_image().len();
    assert_eq!(rt; held, 40);
    // the caller's own buffer
    assert!(rt; image == *b"0ine number zerf, and line one..trailing");
    Ok(())
}

#[test]
fn a_scripted_memory_shows_faults(rt: HostRuntime) -> Result<(), Fail> {
    let mut image = IMAGE;
    let mut memory = Scripted::new(&mut image, 3, &bad_lines(), &[1]);
    faults_are_shown(&rt, &mut memory)?;
    a_read_shows_what_was_there(&rt, &mut memory)?;
    steps_bring_answers(&rt, &mut memory)?;
    assert!(rt; &*memory.into_image() == b"0ine number zerf, and line one..trailing".as_slice());
    Ok(())
}

#[test]
fn an_image_has_at_most_4096_lines(rt: HostRuntime) -> Result<(), Fail> {
    let mut image = [0; 65_552];
    let mut memory = Ordered::new(&mut image, 0, &[], 1);
    assert_eq!(rt; memory.size(), 4096);
    assert!(rt; memory.write(4095, u16::MAX, [7; 16]).is_ok());
    assert!(rt; memory.write(4096, u16::MAX, [7; 16]) == Err(Refusal::NoLine));
    // the last line, with a byte before it and one behind it
    let written = [0, 7, 7, 7, 7, 7, 7, 7, 7, 7, 7, 7, 7, 7, 7, 7, 7, 0];
    let last = memory.into_image().get(65_519..65_537);
    assert!(rt; last == Some(written.as_slice()));
    let mut image = [0; 15];
    let mut memory = Scripted::new(&mut image, 0, &[], &[1]);
    assert_eq!(rt; memory.size(), 0);
    assert!(rt; memory.read(0) == Err(Refusal::NoLine));
    Ok(())
}

#[test]
fn a_line_is_fetched(rt: HostRuntime) -> Result<(), Fail> {
    let image = *b"line number zero, and line one.., then line two,and at last that";
    assert!(rt; fetch(image, 2, 255) == Some(*b", then line two,"));
    assert!(rt; fetch(image, 4, 1) == None);
    Ok(())
}
