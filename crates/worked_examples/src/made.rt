//! Bytes that are made: what a run reads, or what it is to write.

use crate::outcome::expect_made;
use crate::scripts::HEAD;
use crate::wires::Wire;
use std::alloc::{AllocError, Global};
use std::process::Abort;

/// What bytes are made of.
#[derive(Clone, Copy)]
pub enum Bytes {
    /// A text.
    Text(&'static str),
    /// Texts, one behind the other.
    Texts(&'static [&'static str]),
    /// Lines, each with its line feed.
    Lines(&'static [&'static str]),
    /// Lines, each with its line feed but the last.
    Unended(&'static [&'static str]),
    /// Lists of lines, each so many times, one behind the other.
    Repeated(&'static [Repeat]),
    /// Lines, and behind them line feeds up to so many bytes in all.
    Filled {
        lines: &'static [&'static str],
        length: usize,
    },
    /// The head, and behind it a line: a text, spaces up to so many bytes, and what ends it.
    Padded {
        text: &'static str,
        length: usize,
        end: &'static str,
    },
    /// A wire.
    Wire(Wire),
}

/// Lines that come so many times.
#[derive(Clone, Copy)]
pub struct Repeat {
    pub count: usize,
    pub lines: &'static [&'static str],
}

impl Bytes {
    /// Returns the bytes.
    pub fn make(&self, rt: &impl Abort, alloc: Global) -> Vec<u8> {
        let mut bytes = Vec::new(alloc);
        expect_made(rt, self.push_to(&mut bytes));
        bytes
    }

    fn push_to(&self, bytes: &mut Vec<u8>) -> Result<(), AllocError> {
        match *self {
            Bytes::Text(text) => bytes.extend_from_slice(text.as_bytes()),
            Bytes::Texts(texts) => push_texts(bytes, texts),
            Bytes::Lines(lines) => push_lines(bytes, lines),
            Bytes::Unended(lines) => push_unended(bytes, lines),
            Bytes::Repeated(repeats) => push_repeats(bytes, repeats),
            Bytes::Filled { lines, length } => push_filled(bytes, lines, length),
            Bytes::Padded { text, length, end } => push_padded(bytes, text, length, end),
            Bytes::Wire(wire) => wire.push_to(bytes),
        }
    }
}

fn push_texts(bytes: &mut Vec<u8>, texts: &[&str]) -> Result<(), AllocError> {
    for text in texts {
        bytes.extend_from_slice(text.as_bytes())?;
    }
    Ok(())
}

fn push_lines(bytes: &mut Vec<u8>, lines: &[&str]) -> Result<(), AllocError> {
    for line in lines {
        bytes.extend_from_slice(line.as_bytes())?;
        bytes.push(b'\n')?;
    }
    Ok(())
}

fn push_unended(bytes: &mut Vec<u8>, lines: &[&str]) -> Result<(), AllocError> {
    push_lines(bytes, lines)?;
    let _ = bytes.pop();
    Ok(())
}

fn push_repeats(bytes: &mut Vec<u8>, repeats: &[Repeat]) -> Result<(), AllocError> {
    for repeat in repeats {
        for _ in 0..repeat.count {
            push_lines(bytes, repeat.lines)?;
        }
    }
    Ok(())
}

fn push_filled(bytes: &mut Vec<u8>, lines: &[&str], length: usize) -> Result<(), AllocError> {
    push_lines(bytes, lines)?;
    bytes.resize(length, b'\n')
}

fn push_padded(
    bytes: &mut Vec<u8>,
    text: &str,
    length: usize,
    end: &str,
) -> Result<(), AllocError> {
    push_lines(bytes, &[HEAD])?;
    let before = bytes.len();
    bytes.extend_from_slice(text.as_bytes())?;
    bytes.resize(before.saturating_add(length), b' ')?;
    bytes.extend_from_slice(end.as_bytes())
}
