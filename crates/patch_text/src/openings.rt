//! How many tables a TOML document may open.

/// Where the bytes of a TOML document stand that come next.
#[derive(Clone, Copy)]
enum Place {
    /// Outside comments and strings.
    Outside,
    Comment,
    /// Behind the first quote of a string.
    Opened(u8),
    /// Behind two quotes: an empty string, or the start of one of several lines.
    OpenedTwice(u8),
    /// In a string of one line.
    Line(u8),
    /// In such a string, behind a backslash.
    LineEscape,
    /// In a string of several lines, behind so many quotes.
    Lines { quote: u8, quotes: u8 },
    /// In such a string, behind a backslash.
    LinesEscape,
}

impl Place {
    fn after(self, byte: u8) -> Place {
        match self {
            Place::Outside => after_outside(byte),
            Place::Comment => after_comment(byte),
            Place::Opened(quote) => after_opened(quote, byte),
            Place::OpenedTwice(quote) => after_opened_twice(quote, byte),
            Place::Line(quote) => after_line(quote, byte),
            Place::LineEscape => Place::Line(b'"'),
            Place::Lines { quote, quotes } => after_lines(quote, quotes, byte),
            Place::LinesEscape => Place::Lines {
                quote: b'"',
                quotes: 0,
            },
        }
    }
}

fn after_outside(byte: u8) -> Place {
    match byte {
        b'#' => Place::Comment,
        b'"' | b'\'' => Place::Opened(byte),
        _ => Place::Outside,
    }
}

fn after_comment(byte: u8) -> Place {
    if byte == b'\n' {
        Place::Outside
    } else {
        Place::Comment
    }
}

fn after_opened(quote: u8, byte: u8) -> Place {
    if byte == quote {
        Place::OpenedTwice(quote)
    } else {
        after_line(quote, byte)
    }
}

fn after_opened_twice(quote: u8, byte: u8) -> Place {
    if byte == quote {
        Place::Lines { quote, quotes: 0 }
    } else {
        after_outside(byte)
    }
}

fn after_line(quote: u8, byte: u8) -> Place {
    if byte == quote || byte == b'\n' {
        Place::Outside
    } else if byte == b'\\' && quote == b'"' {
        Place::LineEscape
    } else {
        Place::Line(quote)
    }
}

/// Three to five quotes end a string of several lines: it may itself end with two.
fn after_lines(quote: u8, quotes: u8, byte: u8) -> Place {
    if byte == quote && quotes < 4 {
        Place::Lines {
            quote,
            quotes: quotes + 1,
        }
    } else if byte == quote {
        Place::Outside
    } else if quotes >= 3 {
        after_outside(byte)
    } else if byte == b'\\' && quote == b'"' {
        Place::LinesEscape
    } else {
        Place::Lines { quote, quotes: 0 }
    }
}

/// How many bytes may open a table or an array: the brackets, braces and dots outside comments and strings.
pub(crate) fn count_openings(bytes: &[u8]) -> usize {
    let mut place = Place::Outside;
    let mut count: usize = 0;
    for byte in bytes {
        place = place.after(*byte);
        // Such a byte ends no comment and no string, so it stands where those behind it do.
        if matches!(place, Place::Outside) && matches!(*byte, b'[' | b'{' | b'.') {
            count = count.saturating_add(1);
        }
    }
    count
}
