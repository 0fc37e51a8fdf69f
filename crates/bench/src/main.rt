// The bench runner: a program file from standard input, loaded and run once with budget 1,000; one line to standard output.
#![tactic(auto)]

ghost use Rattle.std.specs.Prelude.{◌≤◌, length, IfOk};

use std::io;
use std::io::Read;

// What comes of a file: `answer steps rows`, or `refused number place`.
fn play(rt: &HostRuntime, file: &[u8], kept: &mut [u8], work: &mut [u8]) -> io::Result<()> {
    let v = tca::tca_load(file, kept);
    if v.refusal != 0 {
        println!(rt; "refused {} {}", v.refusal, v.place)?;
        return Ok(());
    }
    let a = tca::run::tca_run(kept, work, 1000);
    if a.refusal != 0 {
        println!(rt; "refused {} 0", a.refusal)?;
        return Ok(());
    }
    if kept.len() < layout::RECORD_HEAD {
        return Ok(());
    }
    let rows = sound::head::row_count(kept);
    println!(rt; "{} {} {}", a.answer, a.steps, rows)
}

// Bytes are read until the buffer is full or the input ends; how many. A while: how many bytes a turn reads is known only once they are read.
fn read_full(input: &mut impl Read, buf: &mut [u8]) -> io::Result<usize>
    ensures { IfOk result (λ n. n ≤ length buf.old) }
{
    let mut n: usize = 0;
    while n < buf.len() {
        let got = input.read(&mut buf[n..])?;
        if got == 0 {
            return Ok(n);
        }
        n += got;
    }
    Ok(n)
}

// One byte more is read than the longest program has: whatever stands behind it, the length is not what the counts need.
fn main(rt: HostRuntime) -> io::Result<()> {
    let mut file = [0u8; 17419];
    let mut input = rt.stdin();
    let n = read_full(&mut input, &mut file)?;
    let mut kept = [0u8; 26132];
    let mut work = [0u8; 16400];
    play(&rt, &file[..n], &mut kept, &mut work)
}
