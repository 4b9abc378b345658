/// Why a token can't be read.
#[derive(Clone, Copy)]
pub enum Refusal {
    /// It is no pattern.
    Syntax,
    /// It is PCRE, but not of this dialect.
    Unsupported,
}
