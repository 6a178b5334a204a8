// Walks a step list from standard input, and prints what each step is answered (document 01, "The step-list program").
#![tactic(auto)]

use std::io::Read;
use steps::list::Course;
use steps::memory::Memory;

// The most bytes of a piece of the input, and what they print: 35 for each.
const PIECE: usize = 4096;

const PRINTED: usize = 143360;

// A proved loop has to end: no input has so many pieces.
const PIECES_MOST: u64 = 1125899906842624;

// Walks the whole input. A read that fails ends the input, and a write that fails the walk.
fn walk_all(rt: &(impl Input + Print), memory: &mut Memory, out: &mut [u8; PRINTED]) {
    let mut input = rt.reader();
    let mut course = Course::start();
    for _ in 0..PIECES_MOST {
        let mut text = [0u8; PIECE];
        let n = input.read(&mut text).unwrap_or(0);
        if n == 0 {
            break;
        }
        let taken = course.take_piece(&text[..n], &mut memory.shelves, &mut memory.packets, out);
        course = taken.course;
        let written = rt.write_all(&out[..taken.end]).is_ok();
        if !written | course.is_over() {
            break;
        }
    }
    let end = course.finish(&mut memory.shelves, &mut memory.packets, out);
    let _ = rt.write_all(&out[..end]);
}

fn main(rt: HostRuntime) {
    walk_all(&rt, &mut Memory::new(), &mut [0; PRINTED]);
}
