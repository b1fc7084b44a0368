// Which leaf a case asks, and how its answer is printed: the refusal's number or 0, the value, the place past it, and one number
// more; of a code that is written the value, the place past it, and the 8 bytes that it was written into.
use buffers::word;
use std::io;
use test_leaves::reading::{
    probe_any5, probe_any8, probe_fixed, probe_range, probe_simple, probe_times, probe_utf8,
    probe_vlu5, probe_vlu8,
};
use test_leaves::words::probe_width;
use test_leaves::writing::{
    probe_put_range, probe_put_simple, probe_put_times, probe_put5, probe_put8,
};

// A reading has its wall in x and its place in y; a writing its value in x. Parameters are a, b and c.
#[derive(Clone, Copy)]
pub struct Case {
    pub asked: u8,
    pub x: u32,
    pub y: u32,
    pub a: u32,
    pub b: u32,
    pub c: u32,
}

fn read(case: Case, s: &[u8], out: &mut [u32; 4]) -> u32 {
    let asked = case.asked;
    match asked {
        0 => probe_fixed(s, case.x, case.y, case.a, out),
        1 => probe_any5(s, case.x, case.y, out),
        2 => probe_vlu5(s, case.x, case.y, out),
        3 => probe_any8(s, case.x, case.y, out),
        4 => probe_vlu8(s, case.x, case.y, out),
        5 => probe_range(s, case.x, case.y, case.a, case.b, out),
        6 => probe_times(s, case.x, case.y, case.a, case.b, out),
        7 => probe_simple(s, case.x, case.y, case.a, case.b, case.c, out),
        8 => {
            out[0] = probe_width(case.a);
            0
        }
        _ => probe_utf8(s),
    }
}

fn write(case: Case, buf: &mut [u8], out: &mut [u32; 4]) -> u32 {
    let asked = case.asked;
    match asked {
        16 => probe_put5(buf, 0, case.x, out),
        17 => probe_put8(buf, 0, case.x, out),
        18 => probe_put_range(buf, 0, case.a, case.b, case.x, out),
        19 => probe_put_times(buf, 0, case.a, case.b, case.x, out),
        _ => probe_put_simple(buf, 0, case.a, case.b, case.c, case.x, out),
    }
}

fn print(rt: &impl Print, n: u32) -> io::Result<()> {
    print!(rt; "{n} ")
}

fn print_last(rt: &impl Print, n: u32) -> io::Result<()> {
    println!(rt; "{n}")
}

fn tell_read(rt: &impl Print, case: Case, s: &[u8]) -> io::Result<()> {
    let mut out = [0u32; 4];
    let number = read(case, s, &mut out);
    print(rt, number)?;
    print(rt, out[0])?;
    print(rt, out[1])?;
    print_last(rt, out[2])
}

fn tell_written(rt: &impl Print, case: Case) -> io::Result<()> {
    let mut out = [0u32; 4];
    let mut buf = [0u8; 8];
    let number = write(case, &mut buf, &mut out);
    print(rt, number)?;
    print(rt, out[0])?;
    print(rt, out[1])?;
    let high = word(&buf, 0);
    let low = word(&buf, 4);
    println!(rt; "{high:08x}{low:08x}")
}

// Reads are asked by numbers below 16, writes by those from 16 on.
pub fn tell(rt: &impl Print, case: Case, s: &[u8]) -> io::Result<()> {
    if case.asked < 16 {
        tell_read(rt, case, s)
    } else {
        tell_written(rt, case)
    }
}
