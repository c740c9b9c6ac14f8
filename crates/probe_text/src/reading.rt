// What a line is: a key, `=`, and what its key asks for, to the line's end.
ghost use Rattle.std.specs.Prelude.{◌≢◌, ◌<◌, ◌^◌, IfSome};

use replay::tokens;
use std::num::f32_from_bits_with_nan;
use words::ids::DocId;

// The header lines, in the scope's order.
#[derive(Clone, Copy, PartialEq, Eq)]
pub enum Header {
    Dim,
    Leaf,
    Min,
    Fraction,
    Degree,
    Bits,
    Final,
    Alpha,
    Ef,
    Cap,
}

// How many there are.
pub const HEADERS: usize = 10;

impl Header {
    fn from_key(key: &[u8]) -> Option<Header> {
        match key {
            b"dim" => Some(Header::Dim),
            b"leaf" => Some(Header::Leaf),
            b"min" => Some(Header::Min),
            b"fraction" => Some(Header::Fraction),
            b"degree" => Some(Header::Degree),
            b"bits" => Some(Header::Bits),
            b"final" => Some(Header::Final),
            b"alpha" => Some(Header::Alpha),
            b"ef" => Some(Header::Ef),
            b"cap" => Some(Header::Cap),
            _ => None,
        }
    }

    // The value that a text is for this key: bits in hexadecimal for fraction and alpha, else a decimal number below 2^32.
    fn value(self, text: &[u8]) -> Option<u64>
        ensures { self ≢ Header.Fraction → self ≢ Header.Alpha → IfSome result (λ value. value < 2 ^ 32) }
    {
        match self {
            Header::Fraction => hexadecimal(text, 16),
            Header::Alpha => hexadecimal(text, 8),
            _ => replay::decimal::<u32>(text).map(u64::from),
        }
    }
}

// What a line is.
#[derive(Clone, Copy)]
pub enum Read<'a> {
    Header(Header, u64),
    Add { doc: DocId, vector: &'a [f32] },
    Build,
    Find { k: u32, ef: u32, query: &'a [f32] },
}

// The number of this many hexadecimal digits that a text is.
fn hexadecimal(text: &[u8], digits: usize) -> Option<u64> {
    if text.len() != digits {
        return None;
    }
    let mut value = 0;
    for b in text {
        value = value << 4 | tokens::digit(*b)?;
    }
    Some(value)
}

// A comma and the bits of a float after it.
fn component(text: &[u8]) -> Option<f32> {
    let bits = hexadecimal(text.strip_prefix(b",")?, 8)?;
    Some(f32_from_bits_with_nan((bits % 0x1_0000_0000) as u32))
}

// The components that a text is. They go to `room`, as many as it holds.
// kept (3): each piece is read, also where there is no room for it, so `zip` does not serve.
fn components<'a>(text: &[u8], room: &'a mut [f32]) -> Option<&'a [f32]> {
    let mut count = 0;
    for piece in text.chunks(9) {
        let x = component(piece)?;
        if count < room.len() {
            room[count] = x;
            count += 1;
        }
    }
    Some(&room[..count])
}

// What stands before the first comma, and the rest from there on.
fn until_comma(text: &[u8]) -> (&[u8], &[u8]) {
    let comma = text.iter().position(|b| *b == b',');
    text.split_at(comma.unwrap_or(text.len()))
}

// doc, components
fn read_add<'a>(text: &[u8], room: &'a mut [f32]) -> Option<Read<'a>> {
    let (doc, rest) = until_comma(text);
    Some(Read::Add {
        doc: DocId(replay::decimal(doc)?),
        vector: components(rest, room)?,
    })
}

// k, ef, components
fn read_find<'a>(text: &[u8], room: &'a mut [f32]) -> Option<Read<'a>> {
    let (k, rest) = until_comma(text);
    let (ef, rest) = until_comma(rest.strip_prefix(b",")?);
    Some(Read::Find {
        k: replay::decimal(k)?,
        ef: replay::decimal(ef)?,
        query: components(rest, room)?,
    })
}

// What a line without its line feed is, if it is one. Components go to `room`, as many as it holds.
pub fn read_line<'a>(line: &[u8], room: &'a mut [f32]) -> Option<Read<'a>> {
    let equals = line.iter().position(|b| *b == b'=')?;
    let key = &line[..equals];
    let text = &line[equals + 1..];
    match key {
        b"add" => read_add(text, room),
        b"find" => read_find(text, room),
        b"build" if text == b"1".as_slice() => Some(Read::Build),
        _ => {
            let header = Header::from_key(key)?;
            Some(Read::Header(header, header.value(text)?))
        }
    }
}
