use label_base::LINE_FEED;

/// The attribute that holds the label of a file.
pub const LABEL_KEY: &[u8] = b"security.selinux";

/// The attribute that holds the digest of a directory. Its value is written in hexadecimal digits.
pub const DIGEST_KEY: &[u8] = b"security.sehash";

/// What begins the line with the name of a file.
pub const FILE_MARK: &[u8] = b"# file: ";

/// Parts the key of an attribute from its value.
pub const EQUALS: u8 = b'=';

/// Stands before and behind a value that is a text.
pub const QUOTE: u8 = b'"';

/// What begins an escape.
pub const BACKSLASH: u8 = b'\\';

/// The control byte above the others, which are below the blank.
pub const DEL: u8 = 127;

/// What begins a value in hexadecimal digits.
pub const ZERO: u8 = b'0';

// What is written between the parts of a line.

pub const KEY_END: &[u8] = b"=";

pub const QUOTE_MARK: &[u8] = b"\"";

pub const QUOTE_ESCAPE: &[u8] = b"\\042";

pub const HEX_MARK: &[u8] = b"0x";

pub const LINE_END: &[u8] = b"\n";
