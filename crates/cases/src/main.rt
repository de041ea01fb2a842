// Reads the frames of the file `frames`, which an independent program wrote (tools/make-frames.py), and prints what the
// frame tests say of each: of an LACPDU also its two blocks and the LACPDU that is written from them, of a Marker the Response.
#![tactic(auto)]

mod shown;
mod six;
mod story;

ghost use Rattle.std.specs.Prelude.{◌≤◌, length};

use crate::shown::Shown;
use anyhow::Context;
use frame::block::{Address, Block};
use frame::class::{Kind, classify};
use frame::wire::TensOfMicroseconds;
use std::fs;
use std::io::{self, ErrorKind, Read, Write};

// The sender of everything that is written here.
const OWN_ADDRESS: Address = Address {
    high: 0x0200,
    middle: 0x5e10,
    low: 0x2030,
};

fn print_lacpdu(w: &mut impl Write, frame: &[u8]) -> io::Result<()>
    requires { 124 ≤ length frame.now }
{
    let actor = Block::read(frame::wire::actor(frame));
    let partner = Block::read(frame::wire::partner(frame));
    writeln!(
        w,
        " lacpdu actor {} partner {}",
        Shown(actor),
        Shown(partner)
    )?;
    let mut out = [0xffu8; 124];
    frame::wire::write_lacpdu(
        &mut out,
        OWN_ADDRESS,
        actor,
        partner,
        TensOfMicroseconds(0x1234),
    );
    writeln!(w, "  sends {}", Shown(out.as_slice()))
}

fn print_marker(w: &mut impl Write, frame: &[u8]) -> io::Result<()>
    requires { 124 ≤ length frame.now }
{
    let mut out = [0xffu8; 124];
    frame::wire::write_response(&mut out, OWN_ADDRESS, frame);
    writeln!(w, " marker")?;
    writeln!(w, "  sends {}", Shown(out.as_slice()))
}

fn print_frame(w: &mut impl Write, count: u64, frame: &[u8]) -> io::Result<()> {
    write!(w, "{count}")?;
    match classify(frame) {
        Ok(Kind::Lacpdu) => print_lacpdu(w, frame),
        Ok(Kind::Marker) => print_marker(w, frame),
        Ok(Kind::Response) => writeln!(w, " response"),
        Err(why) => writeln!(w, " refused {}", u8::from(why)),
    }
}

// Fills the buffer; false where the file ends before.
fn read_full(file: &mut impl Read, buf: &mut [u8]) -> io::Result<bool> {
    match file.read_exact(buf) {
        Ok(()) => Ok(true),
        Err(e) if e.kind() == ErrorKind::UnexpectedEof => Ok(false),
        Err(e) => Err(e),
    }
}

// Reads one frame and prints it; false at the end of the file.
fn print_next(w: &mut impl Write, file: &mut impl Read, count: u64) -> io::Result<bool> {
    let mut head = [0u8; 2];
    if !read_full(file, &mut head)? {
        return Ok(false);
    }
    let size = u16::from_be_bytes(head) as usize;
    let mut buf = [0u8; 65536];
    if !read_full(file, &mut buf[..size])? {
        writeln!(w, "the file ends within a frame")?;
        return Ok(false);
    }
    print_frame(w, count, &buf[..size])?;
    Ok(true)
}

// The count of frames is the loop's bound too: a proved loop has to end.
fn print_all(w: &mut impl Write, file: &mut impl Read) -> io::Result<()> {
    for count in 1..u64::MAX {
        if !print_next(w, file, count)? {
            break;
        }
    }
    Ok(())
}

fn main(rt: HostRuntime) -> anyhow::Result<()> {
    let path = "frames";
    let mut file = fs::open(&rt, path).context(path)?;
    let mut out = rt.stdout();
    print_all(&mut out, &mut file)?;
    story::print_story(&mut out)?;
    six::print_story(&mut out)?;
    Ok(())
}
