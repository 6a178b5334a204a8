// Reads and writes packets by hand and prints what was found: the packet of document 01's P4, bodies of 200 and of
// 201 bytes, an empty packet, and P4's packet broken at each of the eight points.
#![tactic(auto)]

use answers::{Answer, SeatNo};
use packet::{Header, Heading, Kind};
use std::{fmt, io};

// The entries of a vector, each behind a space.
#[derive(Clone, Copy)]
struct Entries<'a>(&'a [u16]);

impl fmt::Display for Entries<'_> {
    fn fmt<W: fmt::Write>(&self, f: &mut fmt::Formatter<W>) -> fmt::Result {
        for entry in self.0 {
            write!(f, " {entry}")?;
        }
        Ok(())
    }
}

// Bytes in hexadecimal, each behind a space.
#[derive(Clone, Copy)]
struct Hex<'a>(&'a [u8]);

impl fmt::Display for Hex<'_> {
    fn fmt<W: fmt::Write>(&self, f: &mut fmt::Formatter<W>) -> fmt::Result {
        for byte in self.0 {
            write!(f, " {byte:02x}")?;
        }
        Ok(())
    }
}

// An answer as document 01 reports it: number, sender, sequence number and length.
#[derive(Clone, Copy)]
struct Reported(Answer);

impl fmt::Display for Reported {
    fn fmt<W: fmt::Write>(&self, f: &mut fmt::Formatter<W>) -> fmt::Result {
        let report = self.0.report();
        let edit = report.edit;
        write!(
            f,
            "  written: {} {} {} {}",
            report.answer, edit.sender.0, edit.number.0, edit.length,
        )
    }
}

// A heading, without the vectors.
#[derive(Clone, Copy)]
struct Headed(Heading);

impl fmt::Display for Headed {
    fn fmt<W: fmt::Write>(&self, f: &mut fmt::Formatter<W>) -> fmt::Result {
        let heading = self.0;
        let kind = match heading.kind {
            Kind::Ordinary => "ordinary",
            Kind::Causal => "causal",
        };
        write!(f, "{kind}, seat {} of {}", heading.sender.0, heading.n)
    }
}

// What a packet says, and the same written again, or that it is refused.
fn show(rt: &impl Print, name: &str, bytes: &[u8]) -> io::Result<()> {
    let reading = packet::read(bytes);
    let past = reading.past;
    let barrier = reading.barrier;
    let body = packet::body(bytes);
    let length = body.len();
    match reading.answer {
        Err(refusal) => {
            let number = refusal.number();
            println!(rt; "{name}: refused {number}, body of {length}")
        }
        Ok(heading) => {
            let n = heading.n as usize;
            let headed = Headed(heading);
            let past_shown = Entries(&past[..n]);
            let barrier_shown = Entries(&barrier[..n]);
            print!(rt; "{name}: {headed}, body of {length}, ")?;
            println!(rt; "past{past_shown}, barrier{barrier_shown}")?;
            again(rt, heading, past, barrier, body)
        }
    }
}

// The message written into a fresh output, and the output's first 18 bytes.
fn again(
    rt: &impl Print,
    heading: Heading,
    past: [u16; 16],
    barrier: [u16; 16],
    body: &[u8],
) -> io::Result<()> {
    let header = Header {
        n: heading.n,
        sender: heading.sender,
    };
    let mut out = [255u8; 267];
    let answer = packet::write(heading.kind, header, past, barrier, body, &mut out);
    println!(rt; "{}:{}", Reported(answer), Hex(&out[..18]))
}

// What writing one seat's first edit, ordinary, with this body answers.
fn write_body(rt: &impl Print, name: &str, body: &[u8]) -> io::Result<()> {
    let header = Header {
        n: 1,
        sender: SeatNo(1),
    };
    let mut past = [0u16; 16];
    past[0] = 1;
    let mut out = [0u8; 267];
    let answer = packet::write(Kind::Ordinary, header, past, [0; 16], body, &mut out);
    println!(rt; "{name}:{}:{}", Reported(answer), Hex(&out[..9]))
}

fn main(rt: HostRuntime) -> io::Result<()> {
    show(
        &rt,
        "P4",
        b"\x12\x08\x00\x00\x02\x00\x00\x00\x00\x00\x01\x00\x00\x00\x00",
    )?;
    let mut most = [0u8; 207];
    most[0] = 16;
    most[2] = 200;
    most[4] = 1;
    show(&rt, "body of 200", &most)?;
    let mut more = [0u8; 208];
    more[0] = 16;
    more[2] = 201;
    more[4] = 1;
    show(&rt, "body of 201", &more)?;
    write_body(&rt, "body of 201", &[7u8; 201])?;
    show(&rt, "empty", b"")?;
    show(&rt, "point 1", b"\x12\x08")?;
    show(
        &rt,
        "point 2",
        b"\x22\x08\x00\x00\x02\x00\x00\x00\x00\x00\x01\x00\x00\x00\x00",
    )?;
    show(
        &rt,
        "point 3",
        b"\x12\x09\x00\x00\x02\x00\x00\x00\x00\x00\x01\x00\x00\x00\x00",
    )?;
    show(
        &rt,
        "point 4",
        b"\x12\x38\x00\x00\x02\x00\x00\x00\x00\x00\x01\x00\x00\x00\x00",
    )?;
    show(
        &rt,
        "point 5",
        b"\x12\x08\xc9\x00\x02\x00\x00\x00\x00\x00\x01\x00\x00\x00\x00",
    )?;
    show(
        &rt,
        "point 6",
        b"\x12\x08\x01\x00\x02\x00\x00\x00\x00\x00\x01\x00\x00\x00\x00",
    )?;
    show(
        &rt,
        "point 7",
        b"\x12\x08\x00\x00\x02\x00\x00\x00\x00\x00\x02\x00\x00\x00\x00",
    )?;
    show(
        &rt,
        "point 8",
        b"\x12\x08\x00\x00\x02\x00\x00\x00\x00\x00\x00\x00\x00\x00\x00",
    )
}
