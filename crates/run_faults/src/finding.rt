/// A piece of a report or of a dump, by what it tells of.
#[derive(Clone, Copy, Debug)]
pub enum Piece {
    /// The line of the operand with this index.
    Operand(u32),
    /// The line, or the section, of the entry with this index.
    Entry(u32),
    /// The line of the specification with this index in the list that decides.
    Rule(u32),
    /// What stands behind the last piece, which is nothing.
    End,
}

/// What an audit finds: whether a report, and a dump, are the right ones, or the first piece that
/// isn't.
#[derive(Clone, Copy, Debug)]
pub enum Finding {
    /// They are.
    Agrees,
    /// The report differs, first at this piece.
    InReport(Piece),
    /// The report is the right one. The dump differs, first at this piece.
    InDump(Piece),
}
