// A file to read for each port, and a new file to write for each.
ghost use Rattle.std.specs.Prelude.{◌+◌, ◌≤◌, ◌<◌, IfOk, length, vec_len};

use crate::Misuse;
use crate::ticks::{Form, Mixing};
use refusal::Stop;
use std::env::Env;
use std::fs::File;
use std::io;
use std::io::{ErrorKind, Read, Stderr, Write};
use std::rt::Files;

// An open file to read and one to write for each port.
#[derive(Drop)]
struct Ports {
    inputs: Vec<File>,
    outputs: Vec<File>,
}

// How many octets a turn has of the port with the fewest and of the port with the most.
#[derive(Clone, Copy)]
struct Columns {
    least: usize,
    most: usize,
}

// Opens the file that argument i names and puts it behind the others. A name has to be UTF-8.
fn add<R: Env, F: Fn(&str) -> io::Result<File>>(
    rt: &R,
    i: usize,
    opened: &F,
    files: &mut Vec<File>,
) -> io::Result<()>
    requires { F.IsAlwaysCallable opened.now }
    ensures { vec_len files.new ≤ vec_len files.old + 1 }
{
    let mut name = [0u8; 4096];
    let n = rt.arg(i, &mut name).unwrap_or(0);
    let name = str::from_utf8(&name[..n]).map_err(|_| ErrorKind::InvalidFilename)?;
    files.push(opened(name)?)?;
    Ok(())
}

// Says that the file that argument i names is not opened.
fn say_unopened(env: &impl Env, err: &Stderr, i: usize, error: io::Error) {
    let mut name = [0u8; 4096];
    let n = env.arg(i, &mut name).unwrap_or(0);
    refusal::fail(err, &name[..n], error);
}

// Opens a file for each port, the first of them that of argument `first`. One that cannot be opened is said while the others are open.
fn open_all<R: Env + AllocGlobal, F: Fn(&str) -> io::Result<File>>(
    rt: &R,
    err: &Stderr,
    first: usize,
    ports: usize,
    opened: F,
) -> Result<Vec<File>, Misuse>
    requires first_bound { first ≤ 1000 }
    requires ports_bound { ports ≤ 8 }
    requires callable { F.IsAlwaysCallable opened }
    ensures { IfOk result (λ files. vec_len files ≤ ports) }
{
    let mut files = Vec::new(rt.alloc());
    for i in first..first + ports {
        if let Err(error) = add(rt, i, &opened, &mut files) {
            say_unopened(rt, err, i, error);
            return Err(Misuse::Unopened);
        }
    }
    Ok(files)
}

// Reads until there is no more room or the file ends, and answers what there is.
fn read_full<'a>(mut file: &File, room: &'a mut [u8]) -> io::Result<&'a [u8]>
    ensures { IfOk result (λ bytes. length bytes.now ≤ length room.old) }
{
    let mut n = 0;
    while n < room.len() {
        match file.read(&mut room[n..])? {
            0 => break,
            more => n += more,
        }
    }
    Ok(&room[..n])
}

// Puts a port's octets at its places in the ticks.
fn weave(column: &[u8], port: usize, ports: usize, octets: &mut [u8])
    requires { 0 < ports }
{
    for (place, octet) in octets.iter_mut().skip(port).step_by(ports).zip(column) {
        *place = *octet;
    }
}

// Takes a port's octets out of the ticks.
fn unweave(octets: &[u8], port: usize, ports: usize, column: &mut [u8])
    requires { 0 < ports }
{
    for (place, octet) in column
        .iter_mut()
        .zip(octets.iter().skip(port).step_by(ports))
    {
        *place = *octet;
    }
}

// Reads up to 1000 octets of each port, and puts them at its places in the ticks.
fn read_all(files: &[File], ports: usize, octets: &mut [u8]) -> Result<Columns, Stop>
    requires { 0 < ports }
    ensures { IfOk result (λ columns. columns.least ≤ 1000) }
{
    let mut columns = Columns {
        least: 1000,
        most: 0,
    };
    for (port, file) in files.iter().enumerate() {
        let mut room = [0u8; 1000];
        let column = read_full(file, &mut room).map_err(Stop::Read)?;
        weave(column, port, ports, octets);
        columns.least = columns.least.min(column.len());
        columns.most = columns.most.max(column.len());
    }
    Ok(columns)
}

// Takes the first octets of each port out of the ticks, as many as `n`, and writes them.
fn write_all(files: &[File], ports: usize, octets: &[u8], n: usize) -> Result<(), Stop>
    requires ports_nonzero { 0 < ports }
    requires n_bound { n ≤ 1000 }
{
    for (port, mut file) in files.iter().enumerate() {
        let mut column = [0u8; 1000];
        let column = &mut column[..n];
        unweave(octets, port, ports, column);
        file.write_all(column).map_err(Stop::Write)?;
    }
    Ok(())
}

impl Form for Ports {
    // It reads 1000 ticks, or what is left. Where one file has ended before another, the rest of that is left out.
    fn turn(&mut self, mixing: &mut Mixing) -> Result<bool, Stop> {
        let ports = mixing.ports();
        let mut octets = [0u8; 8000];
        let Columns { least, most } = read_all(&self.inputs, ports, &mut octets)?;
        let octets = &octets[..least * ports];
        let mut room = [0u8; 8000];
        let room = &mut room[..octets.len()];
        mixing.mix(octets, room)?;
        write_all(&self.outputs, ports, room, least)?;
        mixing.show_lamp();
        if least < most {
            return Err(Stop::LeftOut("tick"));
        }
        Ok(least == 1000)
    }
}

// Runs with the files that the arguments name. No output is made before every input is open. A name that is taken is not opened to
// write: no recording is overwritten.
pub(crate) fn run<R: Files<File = File> + Env + AllocGlobal>(
    rt: &R,
    err: &Stderr,
    mixing: &mut Mixing,
) -> Result<(), Misuse> {
    let ports = mixing.ports();
    let inputs = open_all(rt, err, 2 + ports, ports, |name| { File::open(rt, name) })?;
    let outputs = open_all(rt, err, 2 + 2 * ports, ports, |name| {
        File::options().write(true).create_new(true).open(rt, name)
    })?;
    mixing.run(&mut Ports { inputs, outputs });
    Ok(())
}
