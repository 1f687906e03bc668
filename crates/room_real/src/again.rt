//! Calls that a signal interrupts are tried again, a fixed number of times.
ghost use Rattle.std.specs.Prelude.{◌≡◌, true, IsErr};
ghost use Rattle.std.specs.Io.{ReadsAtMost, WritesAtMost};
ghost use Rattle.std.specs.Io.KnownBytes.{ReadConsumes, WriteAppends};

use std::fs::{File, create_dir};
use std::io;
use std::io::{ErrorKind, Read, Write};
use std::net::TcpStream;
use std::os::unix::fs::FileExt;
use std::rt::Files;

/// How often an interrupted call is tried again.
const TRIES: u32 = 64;

fn is_interrupted<T>(answer: &io::Result<T>) -> bool
    ensures { result ≡ true → IsErr answer.now }
{
    match answer {
        Ok(_) => false,
        Err(error) => error.kind() == ErrorKind::Interrupted,
    }
}

/// A read of a reader.
#[tactic(auto, using(crate::proofs::Kept::keeps_same, crate::proofs::Kept::keeps_then, crate::proofs::Kept::read_after))]
pub(crate) fn read<R: Read>(reader: &mut R, into: &mut [u8]) -> io::Result<usize>
    ensures bound { ReadsAtMost result into.new }
    ensures bytes { ReadConsumes (R.remaining reader.old) (R.remaining reader.new) result into.new }
{
    for _try in 0..TRIES {
        let answer = reader.read(into);
        if !is_interrupted(&answer) {
            return answer;
        }
    }
    reader.read(into)
}

/// A write to a writer.
#[tactic(auto, using(crate::proofs::Kept::keeps_same, crate::proofs::Kept::keeps_then, crate::proofs::Kept::write_after))]
pub(crate) fn write<W: Write>(writer: &mut W, piece: &[u8]) -> io::Result<usize>
    ensures bound { WritesAtMost result piece.now }
    ensures bytes { WriteAppends (W.contents writer.old) (W.contents writer.new) result piece.now }
{
    for _try in 0..TRIES {
        let answer = writer.write(piece);
        if !is_interrupted(&answer) {
            return answer;
        }
    }
    writer.write(piece)
}

/// Makes a folder, unless it is there.
pub(crate) fn make_folder<R: Files>(system: &R, path: &str) -> io::Result<()> {
    for _try in 0..TRIES {
        let answer = create_dir(system, path);
        if !is_interrupted(&answer) {
            return match answer {
                Err(error) if error.kind() == ErrorKind::AlreadyExists => Ok(()),
                answer => answer,
            };
        }
    }
    create_dir(system, path)
}

/// A read at a place of a file.
fn read_at(file: &File, at: u64, into: &mut [u8]) -> io::Result<usize>
    ensures { ReadsAtMost result into.new }
{
    for _try in 0..TRIES {
        let answer = file.read_at(into, at);
        if !is_interrupted(&answer) {
            return answer;
        }
    }
    file.read_at(into, at)
}

/// A write at a place of a file.
fn write_at(file: &File, at: u64, piece: &[u8]) -> io::Result<usize>
    ensures { WritesAtMost result piece.now }
{
    for _try in 0..TRIES {
        let answer = file.write_at(piece, at);
        if !is_interrupted(&answer) {
            return answer;
        }
    }
    file.write_at(piece, at)
}

/// Fills the buffer with the bytes that stand at a place of a file; fewer bytes there are an error.
pub(crate) fn fill_from(file: &File, at: u64, into: &mut [u8]) -> io::Result<()> {
    let mut done = 0;
    for _turn in 0..into.len() {
        if done >= into.len() {
            break;
        }
        match read_at(file, at.saturating_add(done as u64), &mut into[done..])? {
            0 => return Err(io::Error::from(ErrorKind::UnexpectedEof)),
            count => done += count,
        }
    }
    Ok(())
}

/// Writes all of a piece at a place of a file.
pub(crate) fn write_all(file: &File, at: u64, piece: &[u8]) -> io::Result<()> {
    let mut done = 0;
    for _turn in 0..piece.len() {
        if done >= piece.len() {
            break;
        }
        match write_at(file, at.saturating_add(done as u64), &piece[done..])? {
            0 => return Err(io::Error::from(ErrorKind::WriteZero)),
            count => done += count,
        }
    }
    Ok(())
}

/// A look at what a stream has ready, which waits for it.
pub(crate) fn peek(stream: &TcpStream, into: &mut [u8]) -> io::Result<usize>
    ensures { ReadsAtMost result into.new }
{
    for _try in 0..TRIES {
        let answer = stream.peek(into);
        if !is_interrupted(&answer) {
            return answer;
        }
    }
    stream.peek(into)
}
