// Answers each of the books that the arguments name, a line each. One whose name ends in a dot and four characters, as `.book`, is planned:
// the answer's first line, what replay says of the plan, the name. Any other is only judged: the line that answers it, the name.

#![tactic(auto)]

ghost use Rattle.std.specs.Prelude.{◌≡◌, ◌≤◌, length, IfOk, IfSome, OnErr};

use answers::{PLAN_SIZE, TEXT_SIZE};
use std::env::{Env, FillError};
use std::fs::Files;
use std::io::{Eprint, Write};
use std::{fs, io, str};
use streams::INPUT_SIZE;

// Where the requests of a plan lead, by replay.
// Kept: the words as bytes, no `Display` of `replay::Judgement`: they are this program's alone, and `replay` is in the library, which prints
// nothing.
fn write_judgement<W: Write>(writer: &mut W, j: replay::Judgement) -> io::Result<()> {
    match j {
        replay::Judgement::Reaches => writer.write_all(b" reaches "),
        replay::Judgement::Stops(_) => writer.write_all(b" stops "),
        replay::Judgement::EndsShort => writer.write_all(b" short "),
    }
}

fn write_replayed<W: Write>(
    writer: &mut W,
    r: Result<replay::Judgement, replay::Refusal>,
) -> io::Result<()> {
    match r {
        Ok(j) => write_judgement(writer, j),
        Err(_) => writer.write_all(b" refused "),
    }
}

fn plan<W: Write>(writer: &mut W, book: &[u8]) -> io::Result<()> {
    let mut out = [0u8; PLAN_SIZE];
    let answer = planner::plan(book, &mut out);
    let mut text = [0u8; TEXT_SIZE];
    answers::put_answer(answer, &out, &mut text);
    let end = lines::line_end(&text, 0);
    writer.write_all(&text[..end])?;
    match answer {
        Ok(Some(count)) => {
            let requests = 5 * count;
            let r = replay::replay(book, &out[..requests]);
            write_replayed(writer, r)
        }
        Ok(None) | Err(_) => writer.write_all(b" - "),
    }
}

fn judge<W: Write>(writer: &mut W, book: &[u8]) -> io::Result<()> {
    let mut text = [0u8; 64];
    let mut b = frames::no_book();
    let told = frames::read_into(book, false, &mut b);
    readings::put_reading(told, &b, &mut text);
    let end = lines::line_end(&text, 0);
    writer.write_all(&text[..end])?;
    writer.write_all(b" ")
}

// The file at that path, as far as the buffer goes; nothing where there is none, which is told on standard error.
fn read_at<R: Files + Eprint>(rt: &R, path: &str, book: &mut [u8]) -> io::Result<usize>
    ensures ok { IfOk result (λ n. n ≤ length book.new) }
    ensures err { OnErr result (length book.new ≡ length book.old) }
{
    match fs::open(rt, path) {
        Ok(mut file) => streams::read_full(&mut file, book),
        Err(e) => {
            eprintln!(rt; "{path}: {e}")?;
            Ok(0)
        }
    }
}

// The same of a name in bytes: one that is no text names no file.
fn read_named<R: Files + Eprint>(rt: &R, name: &[u8], book: &mut [u8]) -> io::Result<usize>
    ensures ok { IfOk result (λ n. n ≤ length book.new) }
    ensures err { OnErr result (length book.new ≡ length book.old) }
{
    match str::from_utf8(name) {
        Ok(path) => read_at(rt, path, book),
        Err(_) => {
            eprintln!(rt; "a name that is no text")?;
            Ok(0)
        }
    }
}

// Whether a name ends in a dot and four characters.
fn is_planned(name: &[u8]) -> bool {
    matches!(name, [.., b'.', _, _, _, _])
}

fn answer<R: Files + Eprint, W: Write>(rt: &R, writer: &mut W, name: &[u8]) -> io::Result<()> {
    let mut book = [0u8; INPUT_SIZE];
    let n = read_named(rt, name, &mut book)?;
    if is_planned(name) {
        plan(writer, &book[..n])?;
    } else {
        judge(writer, &book[..n])?;
    }
    writer.write_all(name)?;
    writer.write_all(b"\n")
}

// The argument at a place, in the front of a buffer: how many bytes it has, none where it is longer than the buffer. `None` behind the last.
fn argument<R: Env>(rt: &R, k: usize, name: &mut [u8]) -> Option<usize>
    ensures { IfSome result (λ n. n ≤ length name.new) }
{
    match rt.arg(k, name) {
        Ok(n) => Some(n),
        Err(FillError::TooLong) => Some(0),
        Err(FillError::NotPresent) => None,
    }
}

fn main(rt: HostRuntime) -> io::Result<()> {
    let mut output = rt.stdout();
    for k in 1..usize::MAX {
        let mut name = [0u8; 4096];
        match argument(&rt, k, &mut name) {
            Some(n) => answer(&rt, &mut output, &name[..n])?,
            None => break,
        }
    }
    Ok(())
}
