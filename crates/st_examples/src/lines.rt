//! Lines (st_line): what they say, by the `Debug` text of their statements.
use st_line::{LineError, Part, Standing, line_label, read_line, tokens};
use std::alloc::{AllocError, Global};

/// Behind a function's first instruction.
pub const BODY: Standing = Standing {
    in_data: false,
    part: Part::Body,
};

/// Behind a function's label.
pub const HEAD: Standing = Standing {
    in_data: false,
    part: Part::Head {
        arguments: false,
        handles: false,
    },
};

/// Behind a function's label, where both directives were given.
pub const FULL: Standing = Standing {
    in_data: false,
    part: Part::Head {
        arguments: true,
        handles: true,
    },
};

pub const OUTSIDE: Standing = Standing {
    in_data: false,
    part: Part::Outside,
};

pub const DATA: Standing = Standing {
    in_data: true,
    part: Part::Body,
};

/// What a line says there, or its fault.
pub fn line(alloc: Global, standing: Standing, line: &[u8]) -> Result<String, AllocError> {
    match read_line(alloc, standing, line) {
        Ok(statement) => format!(in alloc; "{statement:?}"),
        Err(LineError::Fault(kind)) => String::from_str(alloc, kind.text()),
        Err(LineError::OutOfMemory) => Err(AllocError),
    }
}

/// Whether two lines between ` and ` say the same in a body.
pub fn is_like(alloc: Global, lines: &str) -> Result<String, AllocError> {
    let (first, second) = lines.split_once(" and ").unwrap_or((lines, ""));
    let first = line(alloc, BODY, first.as_bytes())?;
    let second = line(alloc, BODY, second.as_bytes())?;
    if first == second && first.as_str().starts_with("Some") {
        String::from_str(alloc, "the same")
    } else {
        format!(in alloc; "{first} and {second}")
    }
}

/// The label of a line.
pub fn label(alloc: Global, line: &[u8]) -> Result<String, AllocError> {
    match line_label(alloc, line)? {
        None => String::from_str(alloc, "none"),
        Some(label) => String::from_str(alloc, str::from_utf8(label).unwrap_or("?")),
    }
}

/// As `label`, where all before the last colon is told as such.
fn label_outcome(alloc: Global, line: &[u8]) -> Result<String, AllocError> {
    let found = line_label(alloc, line)?;
    if found.is_some() && found == line.strip_suffix(b":") {
        String::from_str(alloc, "all")
    } else {
        label(alloc, line)
    }
}

/// What a line says there, where only its faults are told apart; its label where it stands nowhere.
fn outcome(alloc: Global, standing: Option<Standing>, bytes: &[u8]) -> Result<String, AllocError> {
    let Some(standing) = standing else {
        return label_outcome(alloc, bytes);
    };
    let text = line(alloc, standing, bytes)?;
    if text.as_str().starts_with("Some") {
        String::from_str(alloc, "statement")
    } else {
        Ok(text)
    }
}

/// A line with this byte in place of each `@`.
fn with_byte(alloc: Global, line: &[u8], byte: u8) -> Result<Vec<u8>, AllocError> {
    let mut put = Vec::new(alloc);
    for old in line {
        put.push(if *old == b'@' { byte } else { *old })?;
    }
    Ok(put)
}

/// What stands where a byte is put in place of `@`: each first byte from which on it is another than before.
pub fn places(
    alloc: Global,
    standing: Option<Standing>,
    line: &[u8],
) -> Result<String, AllocError> {
    let mut text = String::new(alloc);
    let mut before = String::new(alloc);
    for byte in 0..=255u8 {
        let put = with_byte(alloc, line, byte)?;
        let now = outcome(alloc, standing, put.as_slice())?;
        if now != before {
            let run = format!(in alloc; "{byte} {now}, ")?;
            text.push_str(run.as_str())?;
            before = now;
        }
    }
    text.push_str("end")?;
    Ok(text)
}

/// Where the tokens of a text stand.
pub fn spans(alloc: Global, text: &[u8]) -> Result<String, AllocError> {
    let mut spans = String::new(alloc);
    for token in tokens(alloc, text)? {
        let span = format!(in alloc; "{}-{} ", token.from, token.to)?;
        spans.push_str(span.as_str())?;
    }
    spans.push_str("end")?;
    Ok(spans)
}
