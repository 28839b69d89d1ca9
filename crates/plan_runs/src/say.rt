// The lines that the program prints.
use handles::write_all;
use std::io::Stdout;

pub fn text(out: Stdout, words: &[u8]) {
    write_all(out, words);
}

pub fn decimal(out: Stdout, n: u32) {
    let mut digits = [0u8; 20];
    let k = io::decimal(n as u64, &mut digits);
    write_all(out, &digits[..k]);
}

// A case's name and two numbers.
pub fn pair(out: Stdout, name: &[u8], a: u32, b: u32) {
    text(out, name);
    text(out, b": ");
    decimal(out, a);
    text(out, b" ");
    decimal(out, b);
    text(out, b"\n");
}

// A case's name and one number.
pub fn one(out: Stdout, name: &[u8], n: u32) {
    text(out, name);
    text(out, b": ");
    decimal(out, n);
    text(out, b"\n");
}
