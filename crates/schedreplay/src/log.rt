// A log of calls, one a line.
use book::calls::Call;
use hex::{FromHex, FromHexError};
use isa::record::Record;
use runs::valuations::Valuations;
use std::alloc::{AllocFailed, Global};

// Where a checker begins: the lawful set, and the bytes of a row file if it is not on the built-in rows.
#[derive(Drop)]
pub(crate) struct Opening {
    pub(crate) lawful: Valuations,
    pub(crate) rows: Option<Vec<u8>>,
}

#[derive(Drop)]
pub(crate) enum Line {
    Open(Opening),
    Call(Call),
}

// Why a line is not read.
#[derive(Clone, Copy)]
enum Unread {
    NotACall,
    OutOfMemory,
}

// Why a log is not performed.
#[derive(Clone, Copy)]
pub(crate) enum LogError {
    // the first line that is no call, counted from 1
    NotACall(usize),
    OutOfMemory,
}

impl From<FromHexError> for Unread {
    fn from(error: FromHexError) -> Unread {
        match error {
            FromHexError::OutOfMemory => Unread::OutOfMemory,
            _ => Unread::NotACall,
        }
    }
}

impl<T: Drop> From<AllocFailed<T>> for LogError {
    fn from(_: AllocFailed<T>) -> LogError {
        LogError::OutOfMemory
    }
}

// What is behind `open `.
fn read_opening(alloc: Global, words: &str) -> Result<Opening, Unread> {
    let (lawful, rest) = words.split_at_checked(16).ok_or(Unread::NotACall)?;
    let lawful = Valuations {
        bits: u64::from_be_bytes(<[u8; 8]>::from_hex(lawful)?),
    };
    if rest.is_empty() {
        return Ok(Opening { lawful, rows: None });
    }
    let digits = rest.strip_prefix(" rows=").ok_or(Unread::NotACall)?;
    let rows = hex::decode(alloc, digits)?;
    Ok(Opening {
        lawful,
        rows: Some(rows),
    })
}

// The call of a line that is neither empty nor a comment.
fn call_of(alloc: Global, line: &str) -> Result<Line, Unread> {
    match line {
        "totals" => return Ok(Line::Call(Call::Totals)),
        "close" => return Ok(Line::Call(Call::Close)),
        _ => {}
    }
    if let Some(digits) = line.strip_prefix("take ") {
        let bytes = <[u8; 8]>::from_hex(digits)?;
        return Ok(Line::Call(Call::Take(Record::from(bytes))));
    }
    let words = line.strip_prefix("open ").ok_or(Unread::NotACall)?;
    Ok(Line::Open(read_opening(alloc, words)?))
}

// The same of bytes, which may be no text.
fn call_of_bytes(alloc: Global, line: &[u8]) -> Result<Line, Unread> {
    match str::from_utf8(line) {
        Ok(line) => call_of(alloc, line),
        Err(_) => Err(Unread::NotACall),
    }
}

// The calls of a log.
pub(crate) fn read_log(alloc: Global, text: &[u8]) -> Result<Vec<Line>, LogError> {
    let mut log = Vec::new(alloc);
    for (before, line) in text.split(|byte| *byte == b'\n').enumerate() {
        if line.is_empty() || line.starts_with(b"#") {
            continue;
        }
        match call_of_bytes(alloc, line) {
            Ok(call) => log.push(call)?,
            Err(Unread::NotACall) => return Err(LogError::NotACall(before + 1)),
            Err(Unread::OutOfMemory) => return Err(LogError::OutOfMemory),
        }
    }
    Ok(log)
}
