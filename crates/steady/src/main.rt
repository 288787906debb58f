// SCOPE, sum 13, for every c: after 24 equal samples c, XL is c and XH is 0.
// Two arguments, if given, make wrong levels to be caught: what XL is to differ from c by, and what XH is to be.
#![tactic(auto)]

use std::env::Env;
use std::io;
use std::io::Print;

// Whether XL and XH are these after 24 samples c.
fn steady(c: i16, low: i16, high: i16) -> bool {
    let mut xl = [0];
    let mut xh = [0];
    mirror::split([c; 22], &[c, c], &mut xl, &mut xh);
    xl == [low] && xh == [high]
}

// Counts the samples of which it holds.
fn count(more: i16, high: i16) -> usize {
    (-16384..16384)
        .filter(|c| steady(*c, arith::add(*c, more), high))
        .count()
}

// The number that argument i gives, or 0 where it gives none below 32768.
fn told(rt: &impl Env, i: usize) -> i16 {
    let mut word = [0; 5];
    let n = rt.arg(i, &mut word).unwrap_or(0);
    argument::number(&word[..n])
        .and_then(|number| i16::try_from(number).ok())
        .unwrap_or(0)
}

fn say(out: &impl Print, held: usize) -> io::Result<()> {
    println!(out; "{held} of 32768 steady levels")
}

// The count goes to standard output where all are steady, and to standard error else.
fn main(rt: HostRuntime) -> io::Result<()> {
    let held = count(told(&rt, 1), told(&rt, 2));
    if held == 32768 {
        say(&rt.stdout(), held)
    } else {
        say(&rt.stderr(), held)
    }
}
